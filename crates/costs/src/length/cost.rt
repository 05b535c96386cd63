// The cost kind of lengths. A file of its own, as its contracts cite definitions that name the struct, whose ghost field would import them in a circle.
ghost use Rattle.std.specs.Prelude.{◌≡◌, min};
ghost use Rattle.costs.specs.Limits.{most};
ghost use Rattle.costs.specs.Lengths.{lengths, stopped};

use crate::length::Length;
use kinds::cost::Cost;
use std::cmp::Ordering;

// Larger lengths stop here.
const MOST: u32 = 1_000_000_000;

// The number, or the largest length where it is above that.
fn stop(number: u32) -> u32
    ensures { result ≡ min number most }
{
    number.min(MOST)
}

impl Length {
    // A number of centimetres; larger ones stop.
    fn of_centimetres(number: u32) -> Length
        ensures { result ≡ stopped number }
    {
        Length {
            centimetres: stop(number),
        }
    }
}

impl Cost for Length {
    ghost costs = { lengths };

    fn zero() -> Length {
        Length::of_centimetres(0)
    }

    fn plus(self, other: Length) -> Length {
        Length::of_centimetres(self.centimetres + other.centimetres)
    }

    fn of_lane(length: u32, _risk: u8) -> Length {
        Length::of_centimetres(length)
    }

    fn limit(cable: u32) -> Length {
        Length::of_centimetres(cable)
    }

    fn compare(&self, other: &Length) -> Ordering {
        self.cmp(other)
    }
}
