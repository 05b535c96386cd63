// The memory that a plan's record goes with, as a map reads it.
ghost use Rattle.std.specs.Prelude.{◌≡◌, ℕ, List, length, slice_index};

pub trait Memory {
    // the bytes that it holds
    ghost bytes: { Self → List ℕ };

    // How many bytes there are.
    fn size(&self) -> usize
        ensures { result ≡ length (bytes self.now) };

    // The byte at a place, and 0 past the end.
    fn byte(&self, at: usize) -> u8
        ensures { result ≡ slice_index (bytes self.now) at };
}

// Bytes that are lent.
impl Memory for &[u8] {
    ghost bytes = { λ m. m.now };

    fn size(&self) -> usize {
        self.len()
    }

    fn byte(&self, at: usize) -> u8 {
        self.get(at).copied().unwrap_or(0)
    }
}
