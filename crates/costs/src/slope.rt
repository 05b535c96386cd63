// Slopes: a run costs the largest of its lanes' risks, read as slopes.
ghost use Rattle.std.specs.Prelude.{◌≡◌, min};
ghost use Rattle.costs.specs.Limits.{steepest};
ghost use Rattle.costs.specs.Slopes.{slopes};

use kinds::cost::Cost;
use std::cmp::Ordering;
use std::fmt;

// A slope, 0 to 255.
#[derive(Clone, Copy, PartialEq, Eq, PartialOrd, Ord, Debug)]
pub struct Slope {
    grade: u8,
}

// The smaller of the number and the steepest slope.
fn capped(number: u32) -> u8
    ensures { result ≡ min number steepest }
{
    u8::try_from(number).unwrap_or(u8::MAX)
}

impl Cost for Slope {
    ghost costs = { slopes };

    fn zero() -> Slope {
        Slope { grade: 0 }
    }

    fn plus(self, other: Slope) -> Slope {
        Slope {
            grade: self.grade.max(other.grade),
        }
    }

    fn of_lane(_length: u32, risk: u8) -> Slope {
        Slope { grade: risk }
    }

    fn limit(cable: u32) -> Slope {
        Slope {
            grade: capped(cable),
        }
    }

    fn compare(&self, other: &Slope) -> Ordering {
        self.cmp(other)
    }
}

// As a plain number, whatever width is asked for.
impl fmt::Display for Slope {
    fn fmt<W: fmt::Write>(&self, f: &mut fmt::Formatter<W>) -> fmt::Result {
        write!(f, "{}", self.grade)
    }
}
