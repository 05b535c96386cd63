// Sides: for each ray, whether it was crossed an odd number of times.
ghost use Rattle.std.specs.Prelude.{◌≡◌, ◌-◌};
ghost use Rattle.kinds.specs.Crossings.{numbered};
ghost use Rattle.kinds.specs.Classes.{crossed, product};
ghost use Rattle.classes.specs.Sides.{sides, stored, digest_of, Tells};
ghost use Rattle.std.proofs.Common.{rules};

use kinds::class::Class;
use kinds::crossing::{Crossing, Ray};
use std::cmp::Ordering;
use std::fmt;

// One bit a ray, ray 1 first: set if it was crossed an odd number of times.
#[derive(Clone, Copy, PartialEq, Eq, Debug)]
pub struct Sides {
    odd: [bool; 7],
}

// Where the bit of a ray stands.
fn place(ray: Ray) -> usize
    ensures { result ≡ numbered ray - 1 }
{
    usize::from(ray.number() - 1)
}

impl Sides {
    // Whether a ray was crossed an odd number of times.
    pub fn is_odd(&self, ray: Ray) -> bool
        ensures { result ≡ stored self.now.odd ray }
    {
        self.odd[place(ray)]
    }

    // The sides of a list of crossings, however long. No `FromIterator`, whose name would not say that it multiplies.
    pub fn of(crossings: &[Crossing]) -> Sides
        ensures product { stored result.odd ≡ product sides crossings.now }
        ensures tells { Tells crossings.now (stored result.odd) }
    {
        crossings.iter().fold(Sides::unit(), |sides, crossing| sides.crossed_by(*crossing))
    }

    // After one more crossing.
    fn crossed_by(&self, crossing: Crossing) -> Sides
        ensures { stored result.odd ≡ sides.mul (stored self.now.odd) (crossed sides crossing) }
    {
        match crossing {
            Crossing::None => *self,
            Crossing::Forwards(ray) | Crossing::Backwards(ray) => self.flipped_at(ray),
        }
    }

    // After one more crossing of a ray.
    fn flipped_at(&self, ray: Ray) -> Sides
        ensures { stored result.odd ≡ sides.mul (stored self.now.odd) (sides.ray ray) }
    {
        let mut odd = self.odd;
        let at = place(ray);
        odd[at] = !odd[at];
        Sides { odd }
    }
}

impl Class for Sides {
    ghost kind = { sides };

    ghost element = { λ s. stored s.odd };

    ghost digested = { digest_of };

    ghost held = { Prim.search rules };

    fn unit() -> Sides {
        Sides { odd: [false; 7] }
    }

    fn inverse(&self) -> Sides {
        *self
    }

    fn after(&self, crossing: Crossing) -> Option<Sides> {
        Some(self.crossed_by(crossing))
    }

    fn compare(&self, other: &Sides) -> Ordering {
        self.odd.cmp(&other.odd)
    }

    // Written out: as a fold each step would have to carry a bound of its sum.
    fn digest(&self) -> u32 {
        let [one, two, three, four, five, six, seven] = self.odd;
        u32::from(one)
            + 2 * u32::from(two)
            + 4 * u32::from(three)
            + 8 * u32::from(four)
            + 16 * u32::from(five)
            + 32 * u32::from(six)
            + 64 * u32::from(seven)
    }
}

// Seven digits, ray 1 first: 1 if the ray was crossed an odd number of times.
impl fmt::Display for Sides {
    fn fmt<W: fmt::Write>(&self, f: &mut fmt::Formatter<W>) -> fmt::Result {
        for number in 1..8u8 {
            if let Ok(ray) = Ray::try_from(number) {
                f.write_char(if self.is_odd(ray) { '1' } else { '0' })?;
            }
        }
        Ok(())
    }
}
