// Words: the free group on seven letters. A word tells every homotopy class from every other.
ghost use Rattle.std.specs.Prelude.{◌≡◌, ◌<◌, ◌≤◌, length, take, Some, MatchBool, MatchOption};
ghost use Rattle.std.proofs.Common.{length-take, arith};
ghost use Rattle.classes.specs.Reduced.{Reduced, acts, known};
ghost use Rattle.classes.specs.Words.{longest, words, single, hashed};

use crate::letters::Letter;
use crate::spelling::{by_length, cancels, hash, turn_round};
use kinds::class::Class;
use kinds::crossing::Crossing;
use std::cmp::Ordering;

// The most letters of a word that is held.
pub const LONGEST: usize = 32;

// A reduced word that is held: the first `len` letters. What stands behind them counts for nothing, so no `PartialEq` is derived.
// An array and a length, as a word must be `Copy`, take no heap and be small: 33 bytes.
#[derive(Clone, Copy)]
pub struct Word {
    letters: [Letter; LONGEST],
    len: u8,
    ghost room: { length letters ≡ longest },
    ghost short: { len ≤ longest },
    ghost reduced: { ∥ Reduced (take len letters) ∥₁ },
}

impl Word {
    // Its letters from first to last.
    pub fn as_slice(&self) -> &[Letter]
        ensures { result.now ≡ take self.now.len self.now.letters }
    {
        &self.letters[..usize::from(self.len)]
    }

    // One more letter at the right end, or cancelling there; none if that word is not held.
    fn joined(&self, more: Letter) -> Option<Word>
        ensures { MatchOption result (length (acts (take self.now.len self.now.letters) (single (Some more))).0 ≤ longest → ⊥) (λ c. take c.len c.letters ≡ (acts (take self.now.len self.now.letters) (single (Some more))).0) }
    {
        let mut letters = self.letters;
        let len = self.len;
        if cancels(self.as_slice(), more) {
            return Some(Word {
                letters,
                len: len - 1,
            });
        }
        if is_full(len) {
            return None;
        }
        letters[usize::from(len)] = more;
        Some(Word {
            letters,
            len: len + 1,
        })
    }
}

// Whether a word of this many letters has no room for one more.
fn is_full(len: u8) -> bool
    ensures { MatchBool result (longest ≤ len) (len < longest) }
{
    usize::from(len) >= LONGEST
}

impl Class for Word {
    ghost kind = { words };

    ghost element = { λ w. known (take w.len w.letters) w.reduced };

    ghost digested = { λ x. hashed 0 x.0 };

    ghost held = { λ c. omega (arith, length-take c.len c.letters, c.short) };

    fn unit() -> Word {
        Word {
            letters: [Letter::LowerA; LONGEST],
            len: 0,
        }
    }

    fn inverse(&self) -> Word {
        let mut letters = self.letters;
        turn_round(&mut letters[..usize::from(self.len)]);
        Word {
            letters,
            len: self.len,
        }
    }

    fn after(&self, crossing: Crossing) -> Option<Word> {
        // a match: with map_or, what crosses nothing would come before what crosses a ray, and nothing is shorter
        match Letter::of(crossing) {
            Some(more) => self.joined(more),
            None => Some(*self),
        }
    }

    fn compare(&self, other: &Word) -> Ordering {
        by_length(self.as_slice(), other.as_slice())
    }

    fn digest(&self) -> u32 {
        hash(self.as_slice())
    }
}
