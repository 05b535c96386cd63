// The two kinds of costs: the length of a run, and its steepest slope.
#![tactic(auto)]

pub mod length;
pub mod slope;
