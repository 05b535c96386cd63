// Why a call is refused.
ghost use Rattle.std.specs.Prelude.{◌≡◌};
ghost use Rattle.kinds.specs.Refusals.{number_of, offset_of};

use std::error::Error;
use std::fmt;

// The variants in the order of their numbers, 1 to 21. Those about a command of a plan hold its offset.
#[derive(Clone, Copy, PartialEq, Eq, Debug)]
pub enum Refusal {
    PlanTooLong,
    MemorySize,
    NotAPlan,
    UnknownCommand(u16),
    CutShort(u16),
    OutOfRange(u16),
    GivenTwice(u16),
    BadEnds(u16),
    TooMany(u16),
    AfterEnd(u16),
    NoChart,
    NoSuchPoint,
    CableTooLong,
    ReachTooLarge,
    NotCovered,
    NoRun,
    TooShort,
    WrongState,
    NoLane,
    BeyondCable,
    NotHome,
}

impl Refusal {
    // The number by which it is known.
    pub fn number(self) -> u8
        ensures { result ≡ number_of self }
    {
        match self {
            Refusal::PlanTooLong => 1,
            Refusal::MemorySize => 2,
            Refusal::NotAPlan => 3,
            Refusal::UnknownCommand(_) => 4,
            Refusal::CutShort(_) => 5,
            Refusal::OutOfRange(_) => 6,
            Refusal::GivenTwice(_) => 7,
            Refusal::BadEnds(_) => 8,
            Refusal::TooMany(_) => 9,
            Refusal::AfterEnd(_) => 10,
            Refusal::NoChart => 11,
            Refusal::NoSuchPoint => 12,
            Refusal::CableTooLong => 13,
            Refusal::ReachTooLarge => 14,
            Refusal::NotCovered => 15,
            Refusal::NoRun => 16,
            Refusal::TooShort => 17,
            Refusal::WrongState => 18,
            Refusal::NoLane => 19,
            Refusal::BeyondCable => 20,
            Refusal::NotHome => 21,
        }
    }

    // Where in the plan it stands, counted in bytes from 0; none if it is not about a plan's bytes.
    pub fn offset(self) -> Option<u16>
        ensures { result ≡ offset_of self }
    {
        match self {
            Refusal::NotAPlan => Some(0),
            Refusal::UnknownCommand(at)
            | Refusal::CutShort(at)
            | Refusal::OutOfRange(at)
            | Refusal::GivenTwice(at)
            | Refusal::BadEnds(at)
            | Refusal::TooMany(at)
            | Refusal::AfterEnd(at) => Some(at),
            _ => None,
        }
    }

    // What is wrong, in a few words.
    fn sentence(self) -> &'static str {
        match self {
            Refusal::PlanTooLong => "the plan is over 65,535 bytes",
            Refusal::MemorySize => "memory has another size than its rule says",
            Refusal::NotAPlan => "the plan is empty or begins with neither G nor M",
            Refusal::UnknownCommand(_) => "this kind of plan has no such command",
            Refusal::CutShort(_) => "operands are cut short, or no E comes",
            Refusal::OutOfRange(_) => "an operand is outside its range",
            Refusal::GivenTwice(_) =>
                "the column has a post, or the survey number is given, already",
            Refusal::BadEnds(_) => "a lane has an unknown end or two equal ends",
            Refusal::TooMany(_) => "an eighth post, 513th point or 1,025th lane",
            Refusal::AfterEnd(_) => "bytes follow E",
            Refusal::NoChart => "no chart stands, or it counts more pairs than places",
            Refusal::NoSuchPoint => "reel, aim or point is not below the point count",
            Refusal::CableTooLong => "the cable number is above 1,000,000",
            Refusal::ReachTooLarge =>
                "the reach has more pairs than places, or a class that is not held",
            Refusal::NotCovered => "the chart does not cover the point, or is aimed",
            Refusal::NoRun => "the pair is not in the chart, or its links do not lead to the reel",
            Refusal::TooShort => "the list or the buffer is too short",
            Refusal::WrongState => "setting out while out, or driving or stowing while stowed",
            Refusal::NoLane => "the lane is missing",
            Refusal::BeyondCable => "the new pair is not in the chart",
            Refusal::NotHome => "the crawler is not at its reel with the unit",
        }
    }
}

// The number, the offset if there is one, and what is wrong.
impl fmt::Display for Refusal {
    fn fmt<W: fmt::Write>(&self, f: &mut fmt::Formatter<W>) -> fmt::Result {
        let number = self.number();
        let sentence = self.sentence();
        match self.offset() {
            Some(at) => write!(f, "refused {number} at {at}: {sentence}"),
            None => write!(f, "refused {number}: {sentence}"),
        }
    }
}

impl Error for Refusal {}
