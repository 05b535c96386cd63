// What the index asks of the keys that it finds places by.
ghost use Rattle.std.specs.Prelude.{◌≡◌, ℕ, Some, Decides, Option};
ghost use Rattle.tables.specs.Probes.{KeyKind};

// Places, numbered from 0, each with a key: records in a slice, or fields in bytes.
pub trait Keys {
    type Key;

    // what keys mean, and the hash of a meaning
    ghost kind: { KeyKind };

    // what a key means; two keys may mean the same
    ghost means: { Self.Key → kind.Meaning };

    // what the key of a place means; none if there is no such place
    ghost at: { Self → ℕ → Option kind.Meaning };

    // A hash that keys of one meaning share.
    fn digest(&self, key: &Self::Key) -> u32
        ensures { result ≡ kind.hash (means key.now) };

    // Whether the place exists and its key means the same as the given one.
    fn holds(&self, place: u16, key: &Self::Key) -> bool
        ensures { Decides result (at self.now place ≡ Some (means key.now)) };
}
