// Lengths: a run costs the sum of its lanes' lengths.
ghost use Rattle.std.specs.Prelude.{◌≤◌};
ghost use Rattle.costs.specs.Limits.{most};

pub mod cost;

use std::fmt;

// A length in centimetres, at most 1,000,000,000.
#[derive(Clone, Copy, PartialEq, Eq, PartialOrd, Ord, Debug)]
pub struct Length {
    centimetres: u32,
    ghost top: { centimetres ≤ most },
}

// As a plain number, in centimetres, whatever width is asked for.
impl fmt::Display for Length {
    fn fmt<W: fmt::Write>(&self, f: &mut fmt::Formatter<W>) -> fmt::Result {
        write!(f, "{}", self.centimetres)
    }
}
