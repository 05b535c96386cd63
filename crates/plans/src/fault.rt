// Why the reading of commands stops.
ghost use Rattle.std.specs.Prelude.{◌≡◌, ◌+◌, ◌^◌, ◌<◌};

// What is wrong with the command that decides, in the order of the refusals' numbers, 4 to 10.
#[derive(Clone, Copy, PartialEq, Eq, Debug)]
pub enum Fault {
    UnknownCommand,
    CutShort,
    OutOfRange,
    GivenTwice,
    BadEnds,
    TooMany,
    AfterEnd,
}

// A fault, and its offset in bytes.
#[derive(Clone, Copy, PartialEq, Eq, Debug)]
pub struct Stop {
    pub fault: Fault,
    pub at: usize,
}

// The fault at the byte behind the end command.
pub(crate) const AFTER_END: Stop = Stop {
    fault: Fault::AfterEnd,
    at: 1,
};

// A fault at the command that is read.
impl From<Fault> for Stop {
    ghost from_gives = { λ f e. e ≡ record { fault = f; at = 0 } };

    fn from(fault: Fault) -> Stop {
        Stop { fault, at: 0 }
    }
}

impl Stop {
    // The same stop, where so many bytes come before those that its offset is counted in.
    pub(crate) fn after(self, bytes: usize) -> Stop
        requires { bytes + self.at < 2 ^ 64 }
        ensures { result ≡ record { fault = self.fault; at = bytes + self.at } }
    {
        Stop {
            fault: self.fault,
            at: bytes + self.at,
        }
    }
}
