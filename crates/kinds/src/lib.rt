// What the planner is about, apart from any one kind of map, class or cost.
#![tactic(auto)]

pub mod class;
pub mod cost;
pub mod crossing;
pub mod lane;
pub mod map;
pub mod pricing;
pub mod refusal;
