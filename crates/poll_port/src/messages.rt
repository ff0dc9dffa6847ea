//! The message of a reply.

ghost use Rattle.std.specs.Prelude.{◌≡◌, ◌≤◌, ◌<◌, [], length, is_some};
ghost use Rattle.feed_defs.specs.History.{longest_message};
ghost use Rattle.hub_outside.specs.Buffer.{room_of};
ghost use Rattle.poll_port.specs.Reading.{FillsUp, HasFillCause, MeetsEnd, ReadsMessage, HasReplyCause};

use crate::extent::Extent;
use crate::faults::ReplyFault;
use feed_defs::LONGEST_MESSAGE;
use hub_outside::{Buf, ReadAnswer, Source};

/// The most bytes that one read asks for: so many are made zero before they are read over.
const PIECE: usize = 1 << 14;

/// What filling a buffer from a source came to.
#[derive(Clone, Copy, Debug, PartialEq, Eq)]
pub(crate) enum Filled {
    /// All bytes are there.
    Whole,
    /// The source ended before.
    Ended,
    /// The source failed.
    Failed,
}

/// What reading the reply to a poll came to.
#[derive(Clone, Copy, Debug, PartialEq, Eq)]
pub(crate) enum Reply {
    /// The buffer holds the message of a good reply.
    Message,
    /// The message of a good reply is longer than the longest one: it has so many bytes, as far as
    /// they are known.
    TooLong(u64),
    /// This is no good reply.
    Unfit(ReplyFault),
    /// The source or the sink failed.
    Failed,
}

/// Reads the message of a reply into the empty buffer, of which the first bytes, and perhaps bytes
/// behind it, were read with its head.
pub(crate) fn read_message<S: Source>(
    source: &mut S,
    extent: Extent,
    front: &[u8],
    into: &mut Buf,
) -> Reply
    requires empty { into.old.bytes ≡ [] }
    requires room { longest_message ≤ room_of into.old }
    requires short { length front.now ≤ 8192 }
    ensures reads { ReadsMessage result extent front.now (S.left source.old) into.new.bytes }
    ensures room { room_of into.new ≡ room_of into.old }
    ensures told { is_some (S.left source.new) ≡ is_some (S.left source.old) }
    ensures cause { HasReplyCause result (S.faults source.old) (S.faults source.new) }
{
    match extent {
        Extent::ToEnd => read_to_end(source, front, into),
        Extent::Bytes(size) if size > LONGEST_MESSAGE as u64 => Reply::TooLong(size),
        Extent::Bytes(size) => read_sized(source, size as usize, front, into),
    }
}

/// Reads a message of so many bytes.
fn read_sized<S: Source>(source: &mut S, size: usize, front: &[u8], into: &mut Buf) -> Reply
    requires empty { into.old.bytes ≡ [] }
    requires room { longest_message ≤ room_of into.old }
    requires size { size ≤ longest_message }
    requires short { length front.now ≤ 8192 }
    ensures reads { ReadsMessage result (Extent.Bytes size) front.now (S.left source.old)
        into.new.bytes }
    ensures room { room_of into.new ≡ room_of into.old }
    ensures told { is_some (S.left source.new) ≡ is_some (S.left source.old) }
    ensures cause { HasReplyCause result (S.faults source.old) (S.faults source.new) }
{
    if size <= front.len() {
        keep(&front[..size], into);
        return Reply::Message;
    }
    keep(front, into);
    match fill_up(source, into, size) {
        Filled::Whole => Reply::Message,
        Filled::Ended => Reply::Unfit(ReplyFault::Cut),
        Filled::Failed => Reply::Failed,
    }
}

/// Reads a message that goes to the end of the connection.
fn read_to_end<S: Source>(source: &mut S, front: &[u8], into: &mut Buf) -> Reply
    requires empty { into.old.bytes ≡ [] }
    requires room { longest_message ≤ room_of into.old }
    requires short { length front.now ≤ 8192 }
    ensures reads { ReadsMessage result Extent.ToEnd front.now (S.left source.old)
        into.new.bytes }
    ensures room { room_of into.new ≡ room_of into.old }
    ensures told { is_some (S.left source.new) ≡ is_some (S.left source.old) }
    ensures cause { HasReplyCause result (S.faults source.old) (S.faults source.new) }
{
    keep(front, into);
    match fill_up(source, into, LONGEST_MESSAGE) {
        Filled::Whole => expect_end(source),
        Filled::Ended => Reply::Message,
        Filled::Failed => Reply::Failed,
    }
}

/// What a message is that has as many bytes as the longest one so far: whole, if no byte follows.
fn expect_end<S: Source>(source: &mut S) -> Reply
    ensures end { MeetsEnd result (S.left source.old) (S.left source.new) }
    ensures told { is_some (S.left source.new) ≡ is_some (S.left source.old) }
    ensures cause { HasReplyCause result (S.faults source.old) (S.faults source.new) }
{
    let mut next = [0];
    match source.read(&mut next) {
        ReadAnswer::Got(_) => Reply::TooLong(LONGEST_MESSAGE as u64 + 1),
        ReadAnswer::End => Reply::Message,
        ReadAnswer::Failed => Reply::Failed,
    }
}

/// Puts bytes into the empty buffer, which has room for them.
fn keep(bytes: &[u8], into: &mut Buf)
    requires empty { into.old.bytes ≡ [] }
    requires room { length bytes.now ≤ room_of into.old }
    ensures bytes { into.new.bytes ≡ bytes.now }
    ensures room { room_of into.new ≡ room_of into.old }
{
    let Ok(()) = into.push_all(bytes) else {
        unreachable!()
    };
}

/// Fills the buffer up to so many bytes, for which it has room. They are read to where they stay.
fn fill_up<S: Source>(source: &mut S, into: &mut Buf, size: usize) -> Filled
    requires begun { length into.old.bytes ≤ size }
    requires room { size ≤ room_of into.old }
    ensures fills { FillsUp result (S.left source.old) (S.left source.new) into.old.bytes
        into.new.bytes size }
    ensures room { room_of into.new ≡ room_of into.old }
    ensures told { is_some (S.left source.new) ≡ is_some (S.left source.old) }
    ensures cause { HasFillCause result (S.faults source.old) (S.faults source.new) }
{
    'pieces: while into.len() < size {
        let most = (size - into.len()).min(PIECE);
        match into.take_from(source, most) {
            ReadAnswer::Got(_) => {}
            ReadAnswer::End => return Filled::Ended,
            ReadAnswer::Failed => return Filled::Failed,
        }
    }
    Filled::Whole
}
