//! One exchange on a link: a request, and its reply.

ghost use Rattle.std.specs.Prelude.{◌≡◌, ◌≤◌, [], length, is_some};
ghost use Rattle.feed_defs.specs.History.{longest_message};
ghost use Rattle.hub_outside.specs.Buffer.{room_of};
ghost use Rattle.poll_port.specs.Polls.{ends, Exchanges};
ghost use Rattle.poll_port.specs.Reading.{ReadsReply, HasReplyCause};

use crate::heads::{HeadRead, read_head};
use crate::messages::{Reply, read_message};
use httparse::spans::HeaderSpan;
use hub_outside::{Buf, Sink, Source, write_all};

/// Writes the request to a link and reads its reply. The buffer gets the message; the head goes to
/// a buffer of its own.
pub(crate) fn exchange<I: Source, O: Sink>(
    request: &[u8],
    head: &mut [u8],
    headers: &mut [HeaderSpan],
    input: &mut I,
    output: &mut O,
    into: &mut Buf,
) -> Reply
    requires full { length head.old ≡ 8192 }
    requires headers { 2731 ≤ length headers.old }
    requires room { longest_message ≤ room_of into.old }
    ensures room { longest_message ≤ room_of into.new }
    ensures exchanged { Exchanges (ends I.left I.faults O.written O.faults) request.now
        (record {
          input = input.old;
          output = output.old;
          input_left = input.new;
          output_left = output.new;
        }) result into.new.bytes }
{
    into.clear();
    if write_all(output, request).is_err() {
        return Reply::Failed;
    }
    read_reply(head, headers, input, into)
}

/// Reads a reply, its message into the empty buffer.
fn read_reply<S: Source>(
    head: &mut [u8],
    headers: &mut [HeaderSpan],
    source: &mut S,
    into: &mut Buf,
) -> Reply
    requires full { length head.old ≡ 8192 }
    requires headers { 2731 ≤ length headers.old }
    requires empty { into.old.bytes ≡ [] }
    requires room { longest_message ≤ room_of into.old }
    ensures reads { ReadsReply result (S.left source.old) into.new.bytes }
    ensures room { longest_message ≤ room_of into.new }
    ensures told { is_some (S.left source.new) ≡ is_some (S.left source.old) }
    ensures cause { HasReplyCause result (S.faults source.old) (S.faults source.new) }
{
    match read_head(source, head, headers) {
        HeadRead::Good(extent, start, filled) => {
            read_message(source, extent, &head[start..filled], into)
        }
        HeadRead::Unfit(fault) => Reply::Unfit(fault),
        HeadRead::Failed => Reply::Failed,
    }
}
