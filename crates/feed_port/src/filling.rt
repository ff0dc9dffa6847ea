//! So many bytes of a source.

ghost use Rattle.std.specs.Prelude.{◌≡◌, ◌+◌, ◌≤◌, [], length, is_some};
ghost use Rattle.hub_outside.specs.Buffer.{room_of};
ghost use Rattle.feed_port.specs.Streams.{Fills, HasFillCause};

use hub_outside::{Buf, ReadAnswer, Source};

/// The most bytes that one read asks for: so many are made zero before they are read over.
const PIECE: usize = 1 << 14;

/// What filling a buffer from a source came to.
#[derive(Clone, Copy, Debug, PartialEq, Eq)]
pub(crate) enum Filled {
    /// All bytes are there.
    Whole,
    /// The source ended before.
    Ended,
    /// The source failed.
    Failed,
}

/// Fills the empty buffer with so many bytes, for which it has room. They are read to where they
/// stay.
pub(crate) fn fill<S: Source>(source: &mut S, into: &mut Buf, size: usize) -> Filled
    requires empty { into.old.bytes ≡ [] }
    requires room { size ≤ room_of into.old }
    ensures fills { Fills result (S.left source.old) (S.left source.new) into.new.bytes size }
    ensures room { room_of into.new ≡ room_of into.old }
    ensures told { is_some (S.left source.new) ≡ is_some (S.left source.old) }
    ensures cause { HasFillCause result (S.faults source.old) (S.faults source.new) }
{
    'pieces: while into.len() < size {
        let most = (size - into.len()).min(PIECE);
        match into.take_from(source, most) {
            ReadAnswer::Got(_) => {}
            ReadAnswer::End => return Filled::Ended,
            ReadAnswer::Failed => return Filled::Failed,
        }
    }
    Filled::Whole
}
