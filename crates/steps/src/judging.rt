// The sizes that charting wants of memory, what its search comes to, and what it leaves when it ends.
ghost use Rattle.std.specs.Prelude.{◌≡◌, ◌*◌, ◌≤◌, Decides};
ghost use Rattle.steps.specs.Ends.{VacantPlace, VacantRecord, or_too_large, kept_by};

use crate::open::Open;
use charts::chart::Pair;
use kinds::class::Class;
use kinds::cost::Cost;
use kinds::refusal::Refusal;

// The largest number of chart places.
const MOST_PLACES: usize = 4096;

// Whether the memory has its sizes: n chart places, n queue places and 2n slots, n from 1 to 4,096.
pub fn has_sizes(places: usize, queue: usize, slots: usize) -> bool
    ensures { Decides result ((1 ≤ places) × (places ≤ 4096) × (queue ≡ places) × (slots ≡ 2 * places)) }
{
    (1..=MOST_PLACES).contains(&places) && queue == places && slots == 2 * places
}

// What was found, or that the reach is too large where it is missing.
pub fn answered<T: Copy>(found: Option<T>) -> Result<T, Refusal>
    ensures { result ≡ or_too_large found }
{
    found.ok_or(Refusal::ReachTooLarge)
}

// How many places the chart keeps.
pub fn kept_by(answer: Result<u16, Refusal>) -> u16
    ensures { result ≡ kept_by answer }
{
    answer.unwrap_or(0)
}

// A place with no pair.
pub fn vacant_place<C: Class, K: Cost>() -> Pair<C, K>
    ensures { VacantPlace C.Class K.Cost result }
{
    Pair {
        point: 0,
        class: C::unit(),
        cost: K::zero(),
        link: None,
    }
}

// A queue place in which nothing waits.
pub fn vacant_record<K: Cost>() -> Open<K>
    ensures { VacantRecord K.Cost result }
{
    Open {
        bound: K::zero(),
        cost: K::zero(),
        slot: 0,
    }
}
