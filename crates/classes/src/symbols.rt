// How lists of crossings are read, and how letters and words are written.
ghost use Rattle.std.specs.Prelude.{◌≡◌, vec_capacity};
ghost use Rattle.classes.specs.Reading.{ReadAll};
ghost use Rattle.classes.specs.declared.symbols.Unread.TheVariants.{Memory};

use crate::letters::Letter;
use crate::words::Word;
use kinds::crossing::{Crossing, NoCrossing};
use std::alloc::AllocError;
use std::error::Error;
use std::fmt;

// Why characters could not be read: one of them stands for no crossing, or memory is wanting.
#[derive(Clone, Copy, PartialEq, Eq, Debug)]
pub enum Unread {
    Symbol { place: usize, symbol: char },
    Memory,
}

impl From<AllocError> for Unread {
    ghost from_gives = { λ _ unread. unread ≡ Memory };

    fn from(_: AllocError) -> Unread {
        Self::Memory
    }
}

// The places are counted from 1.
impl fmt::Display for Unread {
    fn fmt<W: fmt::Write>(&self, f: &mut fmt::Formatter<W>) -> fmt::Result {
        match self {
            Unread::Symbol { place, symbol } => {
                let number = place.saturating_add(1);
                write!(
                    f,
                    "'{symbol}' at place {number} is no crossing: use a to g, A to G or -"
                )
            }
            Unread::Memory => AllocError.fmt(f),
        }
    }
}

impl Error for Unread {}

// The crossings that characters stand for, into `crossings`, whatever that held.
// At a character that stands for none, those before it; where memory is wanting, nothing.
// The vector is lent, so that the contract can say when memory is wanting.
pub fn read(symbols: &[char], crossings: &mut Vec<Crossing>) -> Result<(), Unread>
    ensures { ReadAll symbols.now (vec_capacity crossings.old) crossings.new.items result }
{
    crossings.clear();
    crossings.reserve(symbols.len())?;
    for (place, symbol) in symbols.iter().enumerate() {
        let next = Crossing::try_from(*symbol).map_err(|NoCrossing(symbol)| Unread::Symbol {
            place,
            symbol,
        })?;
        crossings.push_reserved(next);
    }
    Ok(())
}

// Letters as they are written, or `unit` for none.
#[derive(Clone, Copy)]
pub struct Spelled<'a>(pub &'a [Letter]);

impl fmt::Display for Spelled<'_> {
    fn fmt<W: fmt::Write>(&self, f: &mut fmt::Formatter<W>) -> fmt::Result {
        if self.0.is_empty() {
            return f.write_str("unit");
        }
        for letter in self.0 {
            Crossing::from(*letter).fmt(f)?;
        }
        Ok(())
    }
}

impl fmt::Display for Word {
    fn fmt<W: fmt::Write>(&self, f: &mut fmt::Formatter<W>) -> fmt::Result {
        Spelled(self.as_slice()).fmt(f)
    }
}
