//! All of some bytes to a sink.
ghost use Rattle.std.specs.Prelude.{◌≡◌};
ghost use Rattle.hub_outside.specs.Writing.{WritesAll, HasWritingCause};

use crate::sinks::{Sink, WriteAnswer};

/// A sink failed: its count of faults rose.
#[derive(Clone, Copy, Debug, PartialEq, Eq)]
pub struct OutputFault;

/// Writes all the bytes, in as many calls as it takes. Where the sink fails, fewer of them were
/// written, from the first on.
pub fn write_all<K: Sink>(out: &mut K, bytes: &[u8]) -> Result<(), OutputFault>
    ensures bytes { WritesAll result (K.written out.old) (K.written out.new) bytes.now }
    ensures cause { HasWritingCause result (K.faults out.old) (K.faults out.new) }
{
    let mut at = 0;
    'pieces: while at < bytes.len() {
        match out.write(&bytes[at..]) {
            WriteAnswer::Took(count) => at += count,
            WriteAnswer::Failed => return Err(OutputFault),
        }
    }
    Ok(())
}
