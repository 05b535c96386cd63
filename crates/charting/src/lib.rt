// Charting: the search that makes a chart.
#![tactic(auto)]

pub mod charting;
mod memory;
mod search;
