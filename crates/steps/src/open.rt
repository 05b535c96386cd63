// Open pairs as they wait to be taken up.
ghost use Rattle.steps.specs.Opens.{by_bound};

use kinds::cost::Cost;
use std::cmp::Ordering;
use tables::order::Ranked;

// An open pair: its cost with the tail at its point, its cost, and the slot of the index that names its place.
#[derive(Clone, Copy)]
pub struct Open<K> {
    pub bound: K,
    pub cost: K,
    pub slot: u16,
}

// The lower bound goes first, and the lower cost of two with one bound.
// Written by hand and not derived: a cost has no `Ord`, only the `compare` of its kind.
impl<K: Cost> Ranked for Open<K> {
    ghost order = { by_bound K.Cost.costs };

    fn compare(&self, other: &Open<K>) -> Ordering {
        let by_cost = self.cost.compare(&other.cost);
        self.bound.compare(&other.bound).then(by_cost)
    }
}
