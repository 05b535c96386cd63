// What a kind of costs gives: a cost says how much cable, or what else, a run takes.
ghost use Rattle.std.specs.Prelude.{◌≡◌};
ghost use Rattle.kinds.specs.Costs.{CostKind};

use std::cmp::Ordering;

pub trait Cost: Sized + Copy {
    // order, zero, sum, cost of a lane and limit, with their laws
    ghost costs: { CostKind Self };

    // The cost of an empty run.
    fn zero() -> Self
        ensures { result ≡ costs.zero };

    // The cost of one part of a run and then the other.
    fn plus(self, other: Self) -> Self
        ensures { result ≡ costs.plus self other };

    // The cost of a length in centimetres with a risk.
    fn of_lane(length: u32, risk: u8) -> Self
        ensures { result ≡ costs.of length risk };

    // The largest cost within the cable of this number.
    fn limit(cable: u32) -> Self
        ensures { result ≡ costs.limit cable };

    // The total order of costs: equal only for equal costs.
    // No `Ord`: `costs` states the laws of the order, and `Ord` with the three traits that it needs would state them again.
    fn compare(&self, other: &Self) -> Ordering
        ensures { result ≡ costs.order.cmp self.now other.now };
}
