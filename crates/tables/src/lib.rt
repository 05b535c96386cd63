// Tables over lent memory: a hash index, and a queue of waiting elements.
#![tactic(auto)]

mod heap;
pub mod index;
pub mod keys;
pub mod order;
pub mod queue;
#[cfg(test)]
mod queue_tests;
mod sifts;
