// Charting, as it is asked for: what is refused, and what the lent memory holds after each end.
ghost use Rattle.std.specs.Prelude.{◌≡◌, ℕ, ◌<◌, ◌≤◌, length, take, slice_index_or};
ghost use Rattle.charting.specs.Charts.{Fits, VacantFrom, VacantQueue, VacantSlots, Answers, Charts};

use crate::search::search_reach;
use charts::chart::{Chart, Pair};
use kinds::class::Class;
use kinds::cost::Cost;
use kinds::map::Map;
use kinds::refusal::Refusal;
use steps::asked::Asked;
use steps::judging::{has_sizes, kept_by, vacant_place, vacant_record};
use steps::open::Open;
use steps::task::Task;
use tables::index::clear;

// Writes a value to each place. (By `slice::fill` it gets no proof: a clone of a type parameter is not known to be its equal.)
fn fill<T: Copy>(items: &mut [T], value: T)
    ensures { (i : ℕ) (d : T) → i < length items.new → slice_index_or items.new i d ≡ value }
{
    for item in items.iter_mut() {
        *item = value;
    }
}

// Makes all memory vacant but for the first `kept` places.
fn vacate<C: Class, K: Cost>(
    places: &mut [Pair<C, K>],
    queue: &mut [Open<K>],
    slots: &mut [u16],
    kept: u16,
)
    ensures kept { take kept places.new ≡ take kept places.old }
    ensures places { VacantFrom C.Class K.Cost places.new kept }
    ensures queue { VacantQueue K.Cost queue.new }
    ensures slots { VacantSlots slots.new }
{
    let from = usize::from(kept).min(places.len());
    fill(&mut places[from..], vacant_place());
    fill(queue, vacant_record());
    clear(slots);
}

// Searches the reach if what is asked is lawful: how many pairs stand in the first places, or what is refused.
fn answer<M: Map, C: Class, K: Cost>(
    task: &Task<M>,
    places: &mut [Pair<C, K>],
    queue: &mut [Open<K>],
    slots: &mut [u16],
) -> Result<u16, Refusal>
    requires { Fits places.old queue.old slots.old }
    ensures { Answers (M.Map.site task.now.map.now) C.Class K.Cost task.now.asked (length places.old) places.new result }
{
    task.judge()?;
    search_reach(task, places, queue, slots)
}

// Charts the reach: the number of its pairs, which stand in the first places, each at the cost of its cheapest run and
// linked to the pair before it on one such run. There is no heap: the recorder lends all memory, part by part.
#[tactic(auto, using(crate::proofs::Charts::size_refused, crate::proofs::Charts::charts_so, crate::proofs::Charts::kept_within))]
pub fn chart_reach<M: Map, C: Class, K: Cost>(
    map: &M,
    asked: Asked,
    head: &mut Option<Chart>,
    places: &mut [Pair<C, K>],
    queue: &mut [Open<K>],
    slots: &mut [u16],
) -> Result<u16, Refusal>
    ensures { Charts (M.Map.site map.now) C.Class K.Cost asked head.old places.old queue.old slots.old head.new places.new queue.new slots.new result }
{
    if !has_sizes(places.len(), queue.len(), slots.len()) {
        return Err(Refusal::MemorySize);
    }
    let task = Task { map, asked };
    let answer = answer(&task, places, queue, slots);
    vacate(places, queue, slots, kept_by(answer));
    *head = task.head_of(answer);
    answer
}
