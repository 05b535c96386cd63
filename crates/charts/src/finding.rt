// The place of a pair among the places of a chart.
ghost use Rattle.std.specs.Prelude.{◌≡◌, position};
ghost use Rattle.charts.specs.Finding.{matches, Finds};

use crate::chart::Pair;
use kinds::class::Class;
use kinds::cost::Cost;

// The first place with the pair of the point and the class. These stand apart here and in all that asks for a pair,
// since who asks has a point, and a class from the list there; the key of the index that joins them lies in a crate above.
#[tactic(auto, using(crate::proofs::Searches::finds_position))]
pub fn first_place<C: Class, K: Cost>(pairs: &[Pair<C, K>], point: u16, class: &C) -> Option<usize>
    ensures { Finds C.Class pairs.now point class.now result }
{
    place_of(pairs, point, class)
}

// The same, said as `position` says it; written in `first_place`, the check did not find the proof of `Finds`.
fn place_of<C: Class, K: Cost>(pairs: &[Pair<C, K>], point: u16, class: &C) -> Option<usize>
    ensures { result ≡ position (matches C.Class point class.now) pairs.now }
{
    pairs.iter().position(|pair| is_pair(pair, point, class))
}

// Whether a pair is that of the point and the class.
pub fn is_pair<C: Class, K: Cost>(pair: &Pair<C, K>, point: u16, class: &C) -> bool
    ensures { result ≡ matches C.Class point class.now pair.now }
{
    pair.point == point && pair.class.compare(class).is_eq()
}
