//! What tests of ports share: a buffer with room, and what the next ask comes to.

ghost use Rattle.std.specs.Prelude.{◌≤◌, IfOk};
ghost use Rattle.feed_defs.specs.History.{longest_message};
ghost use Rattle.hub_outside.specs.Buffer.{room_of};

use feed_port::{FeedPort, LONGEST_MESSAGE, NoMemory, PortAnswer};
use hub_outside::Buf;
use std::alloc::Global;

/// A buffer with room for a message.
pub(crate) fn buffer(alloc: Global) -> Result<Buf, NoMemory>
    ensures { IfOk result (λ into. longest_message ≤ room_of into) }
{
    let mut into = Buf::new(alloc);
    into.reserve(LONGEST_MESSAGE)?;
    Ok(into)
}

/// A copy of the bytes.
pub(crate) fn copy(alloc: Global, bytes: &[u8]) -> Result<Vec<u8>, NoMemory> {
    let mut same = Vec::new(alloc);
    same.extend_from_slice(bytes)?;
    Ok(same)
}

/// Whether the next ask hands in that message.
pub(crate) fn hands_in<P: FeedPort>(port: &mut P, into: &mut Buf, message: &[u8]) -> bool
    requires { longest_message ≤ room_of into.old }
    ensures { longest_message ≤ room_of into.new }
{
    port.next(into) == PortAnswer::Message && into.as_slice() == message
}

/// Whether the next ask comes to that.
pub(crate) fn comes_to<P: FeedPort>(port: &mut P, into: &mut Buf, answer: PortAnswer) -> bool
    requires { longest_message ≤ room_of into.old }
    ensures { longest_message ≤ room_of into.new }
{
    port.next(into) == answer
}
