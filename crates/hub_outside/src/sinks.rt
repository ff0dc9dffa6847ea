//! Where bytes go.
ghost use Rattle.std.specs.Prelude.{◌≡◌, ℕ, ◌<◌, List, Option, length, is_some};
ghost use Rattle.hub_outside.specs.Sink.{IsWriteWithin, AddsBytes, HasWriteCause};

/// What one write to a [`Sink`] came to.
#[derive(Clone, Copy, Debug, PartialEq, Eq)]
pub enum WriteAnswer {
    /// So many of the bytes were taken, from the first on, one at least.
    Took(usize),
    /// The outside failed: the count of faults rose, and no byte was taken.
    Failed,
}

/// A stream of bytes to be written, as a connection, a file or a vector in memory.
pub trait Sink {
    // The bytes that were written so far, where the sink tells them.
    ghost written: { Self → Option (List ℕ) };

    // How many calls failed so far.
    ghost faults: { Self → ℕ };

    /// Writes some of the bytes, from the first on. A sink that takes none of them has failed.
    fn write(&mut self, bytes: &[u8]) -> WriteAnswer
        requires { 0 < length bytes.now }
        ensures within { IsWriteWithin result (length bytes.now) }
        ensures bytes { AddsBytes result (written self.old) (written self.new) bytes.now }
        ensures told { is_some (written self.new) ≡ is_some (written self.old) }
        ensures cause { HasWriteCause result (faults self.old) (faults self.new) };
}
