// The pairs that a search has found, as keys of the index.
ghost use Rattle.std.specs.Prelude.{◌≡◌};
ghost use Rattle.steps.specs.Keys.{pair_hash, pair_keys, pair_at};

use charts::chart::Pair;
use charts::finding::is_pair;
use kinds::class::Class;
use kinds::cost::Cost;
use tables::keys::Keys;

// The pair of a point and a class, to look for.
#[derive(Clone, Copy)]
pub struct Sought<C> {
    pub point: u16,
    pub class: C,
}

// The places that hold the pairs found so far.
#[derive(Drop)]
pub struct Pairs<'a, C, K> {
    pub found: &'a [Pair<C, K>],
}

impl<C: Class, K: Cost> Keys for Pairs<'_, C, K> {
    type Key = Sought<C>;

    ghost kind = { pair_keys C.Class };

    ghost means = { λ s. (s.point, C.Class.element s.class) };

    ghost at = { λ s. pair_at C.Class s.found.now };

    fn digest(&self, key: &Sought<C>) -> u32 {
        hash_of(key.point, key.class.digest())
    }

    fn holds(&self, place: u16, key: &Sought<C>) -> bool {
        self.found
            .get(usize::from(place))
            .is_some_and(|pair| is_pair(pair, key.point, &key.class))
    }
}

// A hash of a point and the hash of a class.
fn hash_of(point: u16, digest: u32) -> u32
    ensures { result ≡ pair_hash point digest }
{
    let mixed = digest.wrapping_mul(4099).wrapping_add(u32::from(point));
    mixed.wrapping_mul(2654435761) / 65536
}
