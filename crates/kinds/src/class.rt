// What a kind of classes gives: a class says how a run passes the boulders.
ghost use Rattle.std.specs.Prelude.{◌≡◌, ℕ};
ghost use Rattle.kinds.specs.Classes.{ClassKind, After};

use crate::crossing::Crossing;
use std::cmp::Ordering;

pub trait Class: Sized + Copy {
    // the group, with the elements that it holds
    ghost kind: { ClassKind };

    // the element that a value means
    ghost element: { Self → kind.Element };

    // the hash of an element
    ghost digested: { kind.Element → ℕ };

    // The class of a run that crosses nothing.
    fn unit() -> Self
        ensures { element result ≡ kind.unit };

    // The class of the same run backwards.
    fn inverse(&self) -> Self
        ensures { element result ≡ kind.inv (element self.now) };

    // The class after one more crossing; none exactly if that is not held.
    fn after(&self, crossing: Crossing) -> Option<Self>
        ensures { After kind element (element self.now) crossing result };

    // The total order of classes: equal exactly for equal elements.
    // No `Ord`: `kind` states the laws of the order, and `Ord` with the three traits that it needs would state them again.
    fn compare(&self, other: &Self) -> Ordering
        ensures { result ≡ kind.order.cmp (element self.now) (element other.now) };

    // A hash that equal elements share.
    fn digest(&self) -> u32
        ensures { result ≡ digested (element self.now) };

    // a value means a held element
    ghost held: { (c : Self) → kind.Held (element c) };
}
