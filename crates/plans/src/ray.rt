// Rays and crossings by their numbers, as plans have them.
ghost use Rattle.std.specs.Prelude.{◌≡◌, cond};
ghost use Rattle.plans.specs.Rays.{ahead, is_crossing, crossing_of};

use kinds::crossing::{Crossing, Ray};

// The ray with this number crossed forwards; nothing if no ray has it.
pub(crate) fn forwards(number: u8) -> Crossing
    ensures { result ≡ ahead number }
{
    Ray::try_from(number).map_or(Crossing::None, Crossing::Forwards)
}

// The crossing that the byte stands for: 0 none, 1 to 7 forwards, 129 to 135 backwards.
pub(crate) fn crossing_of(byte: u8) -> Option<Crossing>
    ensures { result ≡ cond (is_crossing byte) (Some (crossing_of byte)) None }
{
    match byte {
        0..=7 => Some(forwards(byte)),
        129..=135 => Some(forwards(byte - 128).opposite()),
        _ => None,
    }
}
