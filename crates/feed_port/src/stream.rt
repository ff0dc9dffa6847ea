//! Messages of a stream of bytes.

ghost use Rattle.std.specs.Prelude.{◌≡◌, ◌+◌, ◌≤◌, [], length, is_some};
ghost use Rattle.std.specs.Int.{from_be_bytes, w32};
ghost use Rattle.feed_defs.specs.History.{longest_message};
ghost use Rattle.hub_outside.specs.Buffer.{room_of};
ghost use Rattle.feed_port.specs.Ports.{Answers, GoesOnToTell, HasPortCause};
ghost use Rattle.feed_port.specs.Streams.{source_of, stage_of, stream_ahead, own_faults, IsExact, NextStage, ReadsFrame};

use crate::filling::{Filled, fill};
use crate::port::{FeedPort, PortAnswer};
use feed_defs::LONGEST_MESSAGE;
use hub_outside::{Buf, Source};

/// Where a stream of messages stands.
#[derive(Clone, Copy, Debug, PartialEq, Eq)]
pub(crate) enum Stage {
    /// It is read on.
    Open,
    /// It is over: a message was too long, or the source failed.
    Over,
    /// It is over: the source ended within a message. This is a fault of the port's own.
    Cut,
}

/// A port over a source of bytes: four bytes with the length of a message, the most significant
/// first, then the message, and so on. Behind a length above the limit and behind a failure nothing
/// more is read.
#[derive(Drop)]
pub struct StreamPort<S> {
    source: S,
    stage: Stage,
}

impl<S: Source + Send + Drop> StreamPort<S> {
    /// The port of a source of which nothing was read for it yet. It takes no memory.
    pub fn new(source: S) -> StreamPort<S>
        ensures source { source_of result ≡ source }
        ensures stage { stage_of result ≡ Stage.Open }
    {
        StreamPort {
            source,
            stage: Stage::Open,
        }
    }
}

impl<S: Source + Send + Drop> FeedPort for StreamPort<S> {
    ghost ahead = { λ port. stream_ahead (stage_of port) (S.left (source_of port)) };

    ghost faults = { λ port. S.faults (source_of port) + own_faults (stage_of port) };

    /// Reads the next message to where it stays.
    fn next(&mut self, into: &mut Buf) -> PortAnswer
        requires room { longest_message ≤ room_of into.old }
        ensures room { longest_message ≤ room_of into.new }
        ensures answer { Answers result
            (stream_ahead (stage_of self.old) (S.left (source_of self.old)))
            (stream_ahead (stage_of self.new) (S.left (source_of self.new))) into.new.bytes }
        ensures told { GoesOnToTell
            (stream_ahead (stage_of self.old) (S.left (source_of self.old)))
            (stream_ahead (stage_of self.new) (S.left (source_of self.new)))
            (S.faults (source_of self.old) + own_faults (stage_of self.old))
            (S.faults (source_of self.new) + own_faults (stage_of self.new)) }
        ensures cause { HasPortCause result
            (S.faults (source_of self.old) + own_faults (stage_of self.old))
            (S.faults (source_of self.new) + own_faults (stage_of self.new)) }
        ensures exact { IsExact (stage_of self.old) (S.left (source_of self.old))
            (S.faults (source_of self.old)) (S.faults (source_of self.new)) result }
        ensures stage { NextStage (stage_of self.old) (S.left (source_of self.old))
            (S.faults (source_of self.old)) (S.faults (source_of self.new)) result
            (stage_of self.new) }
    {
        into.clear();
        match self.stage {
            Stage::Open => {
                let (answer, stage) = read_message(&mut self.source, into);
                self.stage = stage;
                answer
            }
            Stage::Over | Stage::Cut => PortAnswer::End,
        }
    }
}

/// Reads the message in front of a source into the empty buffer, and tells where the stream stands
/// then.
fn read_message<S: Source>(source: &mut S, into: &mut Buf) -> (PortAnswer, Stage)
    requires empty { into.old.bytes ≡ [] }
    requires room { longest_message ≤ room_of into.old }
    ensures reads { ReadsFrame result.0 result.1 (S.left source.old) (S.left source.new)
        (S.faults source.old) (S.faults source.new) into.new.bytes }
    ensures room { room_of into.new ≡ room_of into.old }
    ensures told { is_some (S.left source.new) ≡ is_some (S.left source.old) }
{
    match fill(source, into, 4) {
        Filled::Whole => {}
        Filled::Ended if into.len() == 0 => return (PortAnswer::End, Stage::Open),
        Filled::Ended => return (PortAnswer::Failed, Stage::Cut),
        Filled::Failed => return (PortAnswer::Failed, Stage::Over),
    }
    let size = size_in(into.as_slice());
    into.clear();
    if size as usize > LONGEST_MESSAGE {
        return (PortAnswer::TooLong(u64::from(size)), Stage::Over);
    }
    match fill(source, into, size as usize) {
        Filled::Whole => (PortAnswer::Message, Stage::Open),
        Filled::Ended => (PortAnswer::Failed, Stage::Cut),
        Filled::Failed => (PortAnswer::Failed, Stage::Over),
    }
}

/// The number that four bytes are, the most significant first.
fn size_in(head: &[u8]) -> u32
    requires { length head.now ≡ 4 }
    ensures { result ≡ from_be_bytes w32 head.now }
{
    u32::from_be_bytes([head[0], head[1], head[2], head[3]])
}
