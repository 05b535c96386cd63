// Plan bytes, and the maps that they describe.
#![tactic(auto)]

pub mod fault;
pub mod grid;
mod grid_plan;
pub mod memory;
pub mod outcome;
pub mod plan;
mod ray;
mod reader;
pub mod reading;
pub mod road;
mod road_plan;
mod survey;
