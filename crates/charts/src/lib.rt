// Charts of the ways in which a cable can lie: what they hold, the list at a point, and the runs.
#![tactic(auto)]

pub mod asking;
pub mod chart;
pub mod finding;
pub mod listing;
pub mod runs;
