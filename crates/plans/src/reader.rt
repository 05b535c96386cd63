// Reading the commands of a plan one after the other, whichever kind of plan it is.
ghost use Rattle.std.specs.Prelude.{◌≡◌, ℕ, List, [], ◌∷◌, ◌≢◌};
ghost use Rattle.plans.specs.Plans.{Head, Command};
ghost use Rattle.plans.specs.Steps.{Read, Stepped, Run};

use crate::fault::{AFTER_END, Fault, Stop};

// What takes up the commands of one kind of plan.
pub(crate) trait Reader {
    // the opening command before them
    ghost head: { Self → Head };

    // it is as these commands leave it
    ghost holds: { List Command → Self → Type 0 };

    // the slices that it is lent, by the names of their borrows
    ghost lent: { Self → List ℕ };

    // Takes up the command with this letter, whose operands stand at the front of the bytes. Answers what is left after them.
    fn take<'a>(&mut self, letter: u8, operands: &'a [u8]) -> Result<&'a [u8], Stop>
        requires { letter ≢ 69 }
        ensures head { head self.new ≡ head self.old }
        ensures same_slices { lent self.new ≡ lent self.old }
        ensures said { Read (head self.old) (λ cs. holds cs self.old) (λ cs. holds cs self.new) (letter ∷ operands.now) result };
}

// Reads one command from the front of what is left: answers what is left after it, or none at the end.
fn step<'a, R: Reader>(reader: &mut R, left: &'a [u8]) -> Result<Option<&'a [u8]>, Stop>
    ensures head { R.head reader.new ≡ R.head reader.old }
    ensures same_slices { R.lent reader.new ≡ R.lent reader.old }
    ensures said { Stepped (R.head reader.old) (λ cs. R.holds cs reader.old) (λ cs. R.holds cs reader.new) left.now result }
{
    match left {
        // the letter first: told by two patterns, the end costs each command a test more
        [b'E', rest @ ..] => if rest.is_empty() {
            Ok(None)
        } else {
            Err(AFTER_END)
        },
        [letter, operands @ ..] => Ok(Some(reader.take(*letter, operands)?)),
        [] => Err(Fault::CutShort.into()),
    }
}

// Reads command after command, up to the end or the first fault, whose offset is from the first command.
pub(crate) fn read_commands<R: Reader>(reader: &mut R, commands: &[u8]) -> Result<(), Stop>
    requires { R.holds [] reader.old }
    ensures head { R.head reader.new ≡ R.head reader.old }
    ensures same_slices { R.lent reader.new ≡ R.lent reader.old }
    ensures said { Run (R.head reader.old) commands.now (λ cs. R.holds cs reader.new) result }
{
    let mut left = commands;
    // No map_err with ?: where the kind of reader is left open, the proof does not see what that closure answers.
    loop {
        match step(reader, left) {
            Ok(Some(next)) => left = next,
            Ok(None) => return Ok(()),
            Err(stop) => return Err(stop.after(commands.len() - left.len())),
        }
    }
}
