// The class that a list of crossings names, held or not.
ghost use Rattle.std.specs.Prelude.{◌≡◌, ◌+◌, ◌<◌, ◌≤◌, [], length, Some, vec_len, vec_capacity, MatchResult};
ghost use Rattle.classes.specs.Reduced.{Reduced, acts};
ghost use Rattle.classes.specs.Words.{single};
ghost use Rattle.classes.specs.Strikes.{Names};

use crate::letters::Letter;
use crate::spelling::cancels;
use kinds::crossing::Crossing;
use std::alloc::AllocError;

// One more letter at the right end of a reduced word, or cancelling there.
fn join(word: &mut Vec<Letter>, more: Letter)
    requires reduced { Reduced word.old.items }
    requires room { vec_len word.old < vec_capacity word.old }
    ensures items { word.new.items ≡ (acts word.old.items (single (Some more))).0 }
    ensures bound { vec_len word.new ≤ vec_len word.old + 1 }
    ensures capacity { vec_capacity word.new ≡ vec_capacity word.old }
{
    if cancels(word, more) {
        let _ = word.pop();
    } else {
        word.push_reserved(more);
    }
}

// The word of a list of crossings, of any length, into `word`, whatever that held. Where memory is wanting, `word` is empty.
// The vector is lent, so that the contract can say when memory is wanting.
pub fn name(crossings: &[Crossing], word: &mut Vec<Letter>) -> Result<(), AllocError>
    ensures { MatchResult result (λ _. Names crossings.now word.new.items) (λ _. (word.new.items ≡ []) × (vec_capacity word.old < length crossings.now)) }
{
    word.clear();
    word.reserve(crossings.len())?;
    for crossing in crossings {
        if let Some(more) = Letter::of(*crossing) {
            join(word, more);
        }
    }
    Ok(())
}
