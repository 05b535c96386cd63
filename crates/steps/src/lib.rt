// The single steps of charting: where a lane leads and at what cost, which pairs go first, what is refused, and how an end leaves the memory.
#![tactic(auto)]

pub mod asked;
pub mod judging;
pub mod leading;
pub mod open;
pub mod pairs;
pub mod task;
