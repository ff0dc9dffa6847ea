//! Where bytes come from.
ghost use Rattle.std.specs.Prelude.{◌≡◌, ℕ, ◌<◌, List, Option, length, is_some};
ghost use Rattle.hub_outside.specs.Source.{bytes_got, IsReadWithin, TakesBytes, HasReadCause};

/// What one read of a [`Source`] came to.
#[derive(Clone, Copy, Debug, PartialEq, Eq)]
pub enum ReadAnswer {
    /// So many bytes stand at the start of the slice, one at least.
    Got(usize),
    /// No bytes are left, now and later.
    End,
    /// The outside failed: the count of faults rose, and no byte was taken.
    Failed,
}

impl ReadAnswer {
    /// How many bytes the read gave.
    pub(crate) fn count(self) -> usize
        ensures { result ≡ bytes_got self }
    {
        match self {
            ReadAnswer::Got(count) => count,
            ReadAnswer::End | ReadAnswer::Failed => 0,
        }
    }
}

/// A stream of bytes to be read, as a connection, a file or a list in memory.
pub trait Source {
    // The bytes that reads will give from here on, where the source tells them.
    ghost left: { Self → Option (List ℕ) };

    // How many calls failed so far.
    ghost faults: { Self → ℕ };

    /// Reads some bytes into the start of `into`. What `into` holds past them is of no meaning.
    fn read(&mut self, into: &mut [u8]) -> ReadAnswer
        requires { 0 < length into.old }
        ensures within { IsReadWithin result (length into.old) }
        ensures bytes { TakesBytes result (left self.old) (left self.new) into.new }
        ensures told { is_some (left self.new) ≡ is_some (left self.old) }
        ensures cause { HasReadCause result (faults self.old) (faults self.new) };
}
