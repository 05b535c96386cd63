// What is asked of the letters of a word, as a slice.
ghost use Rattle.std.specs.Prelude.{◌≡◌, ◌≤◌, length, map, Decides, MatchBool};
ghost use Rattle.kinds.specs.Comparisons.{lists};
ghost use Rattle.classes.specs.Letters.{turned, letters};
ghost use Rattle.classes.specs.Reduced.{EndsIn, mirror};
ghost use Rattle.classes.specs.Words.{shortlex, mixed, hashed, longest};

use crate::letters::Letter;
use crate::words::LONGEST;
use std::cmp::Ordering;

// By the first letter that differs.
#[tactic(auto, using(crate::proofs::Ranks::letters_by_rank))]
fn by_letters(left: &[Letter], right: &[Letter]) -> Ordering
    ensures { result ≡ (lists letters).cmp left.now right.now }
{
    left.cmp(&right)
}

// The shorter first, then by the first letter that differs.
pub fn by_length(left: &[Letter], right: &[Letter]) -> Ordering
    ensures { result ≡ shortlex.cmp left.now right.now }
{
    left.len().cmp(&right.len()).then(by_letters(left, right))
}

// The hash of some letters and then one more.
fn hash_more(sum: u32, letter: Letter) -> u32
    ensures { result ≡ mixed sum letter }
{
    sum.wrapping_mul(31)
        .wrapping_add(u32::from(letter.rank()) + 1)
}

// A hash of the letters.
pub fn hash(word: &[Letter]) -> u32
    ensures { result ≡ hashed 0 word.now }
{
    word.iter().fold(0, |sum, letter| hash_more(sum, *letter))
}

// The opposite of each letter.
fn turn_each(word: &mut [Letter])
    ensures { word.new ≡ map turned word.old }
{
    for letter in word.iter_mut() {
        *letter = letter.opposite();
    }
}

// The letters of the inverse: the opposites in the opposite order.
#[tactic(auto, using(crate::proofs::Inverses::turned_reverse))]
pub(crate) fn turn_round(word: &mut [Letter])
    ensures { word.new ≡ mirror word.old }
{
    word.reverse();
    turn_each(word);
}

// Whether one more letter cancels: the last letter is its opposite.
pub fn cancels(word: &[Letter], more: Letter) -> bool
    ensures { MatchBool result (EndsIn word.now (turned more)) (EndsIn word.now (turned more) → ⊥) }
{
    word.last() == Some(&more.opposite())
}

// Whether a word of these letters is held.
pub fn is_held(word: &[Letter]) -> bool
    ensures { Decides result (length word.now ≤ longest) }
{
    word.len() <= LONGEST
}
