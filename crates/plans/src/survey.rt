// The survey numbers in plan memory, as keys of the index: the i-th point's number takes the 4 bytes from 8192 + 4·i, high byte first.
ghost use Rattle.std.specs.Prelude.{◌≡◌, ◌+◌, ◌≤◌, length};
ghost use Rattle.plans.specs.Surveys.{number_at, survey_place, survey_at, numbers};

use tables::keys::Keys;

// The first points of a roadmap, by their survey numbers. How these lie in memory is fixed by the format, and so is their count.
#[derive(Drop)]
pub(crate) struct Surveys<'a> {
    pub(crate) memory: &'a [u8],
    pub(crate) count: u16,
}

impl Keys for Surveys<'_> {
    type Key = u32;

    ghost kind = { numbers };

    ghost means = { λ n. n };

    ghost at = { λ s. survey_at s.memory.now s.count };

    fn digest(&self, key: &u32) -> u32 {
        *key
    }

    fn holds(&self, place: u16, key: &u32) -> bool {
        let at = survey_place(place);
        place < self.count && at + 4 <= self.memory.len() && number_at(self.memory, at) == *key
    }
}

// Where the survey number of a point lies.
pub(crate) fn survey_place(point: u16) -> usize
    ensures { result ≡ survey_place point }
{
    8192 + 4 * usize::from(point)
}

// The number that four bytes spell, high byte first.
fn number_at(memory: &[u8], at: usize) -> u32
    requires { at + 4 ≤ length memory.now }
    ensures { result ≡ number_at memory.now at }
{
    u32::from_be_bytes([memory[at], memory[at + 1], memory[at + 2], memory[at + 3]])
}
