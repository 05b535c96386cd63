// What the elements of a queue can do: any two of them compare.
ghost use Rattle.std.specs.Prelude.{◌≡◌};
ghost use Rattle.tables.specs.Orders.{Order, numbers};

use std::cmp::Ordering;

// A trait of its own, and not `Ord`: two elements that compare as equal may differ, which the laws of `Ord` rule out.
pub trait Ranked: Copy {
    ghost order: { Order Self };

    fn compare(&self, other: &Self) -> Ordering
        ensures { result ≡ order.cmp self.now other.now };
}

impl Ranked for u32 {
    ghost order = { numbers };

    fn compare(&self, other: &u32) -> Ordering {
        self.cmp(other)
    }
}
