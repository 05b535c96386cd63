// Where a lane leads from a pair, and what it costs to go there.
ghost use Rattle.std.specs.Prelude.{◌≡◌, ◌+◌, ◌<◌, ◌≤◌, Decides};
ghost use Rattle.steps.specs.Leads.{onward, Leads};

use charts::chart::Pair;
use kinds::class::Class;
use kinds::cost::Cost;
use kinds::lane::Lane;

// Whether there is a place for one more pair. Not one with the test of a queue: they would share only `<`.
pub fn has_room(found: u16, places: usize) -> bool
    ensures { Decides result (found < places) }
{
    usize::from(found) < places
}

// The lane number after this one; the highest stays.
pub fn following(number: u16) -> u16
    ensures next { number < 65535 → result ≡ number + 1 }
    ensures last { 65535 ≤ number → result ≡ 65535 }
{
    number.saturating_add(1)
}

// What it costs to go on by a lane from a pair. Apart from the pricing of a run, which asks the class first.
pub fn cost_on<C: Class, K: Cost>(from: &Pair<C, K>, lane: Lane) -> K
    ensures { result ≡ onward K.Cost.costs from.now.cost lane }
{
    from.cost
        .plus(K::of_lane(u32::from(lane.length), lane.risk))
}

// The pair that a lane leads to from the one at the place `hand`; none if its class is not held.
pub fn led<C: Class, K: Cost>(
    from: &Pair<C, K>,
    lane: Lane,
    hand: u16,
    cost: K,
) -> Option<Pair<C, K>>
    ensures { Leads C.Class from.now lane hand cost result }
{
    let class = from.class.after(lane.crossing)?;
    Some(Pair {
        point: lane.to,
        class,
        cost,
        link: Some(hand),
    })
}
