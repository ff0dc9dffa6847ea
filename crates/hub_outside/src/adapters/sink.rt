//! A writer of std as a sink.
ghost use Rattle.std.specs.Prelude.{◌≡◌, ◌<◌, None, length, false};
ghost use Rattle.hub_outside.specs.Adapters.{writer_of, writer_faults};
ghost use Rattle.hub_outside.specs.Decisions.{answer_of_write, is_cut_short};
ghost use Rattle.hub_outside.specs.Sink.{IsWriteWithin, AddsBytes, HasWriteCause};

use super::retry::write_once;
use crate::sinks::{Sink, WriteAnswer};
use std::io;
use std::io::Write;

/// A writer of std, as standard output or a socket. An error is a fault, and so is a write that
/// takes nothing.
#[derive(Drop)]
pub struct StdSink<W> {
    writer: W,
    faults: u64,
}

impl<W: Write> StdSink<W> {
    /// A sink over the writer, with no fault yet.
    pub fn new(writer: W) -> StdSink<W>
        ensures writer { writer_of result ≡ writer }
        ensures faults { writer_faults result ≡ 0 }
    {
        StdSink { writer, faults: 0 }
    }
}

impl<W: Write> Sink for StdSink<W> {
    ghost written = { λ _. None };

    ghost faults = { writer_faults };

    /// Writes once, and again where a signal cut the write short. Where the writer itself knows its
    /// bytes, they grow by the ones that were taken.
    fn write(&mut self, bytes: &[u8]) -> WriteAnswer
        requires { 0 < length bytes.now }
        ensures within { IsWriteWithin result (length bytes.now) }
        ensures cause { HasWriteCause result (writer_faults self.old) (writer_faults self.new) }
        ensures writes { AddsBytes result
            (W.contents (writer_of self.old)) (W.contents (writer_of self.new)) bytes.now }
    {
        let answer = answer_of(write_once(&mut self.writer, bytes));
        if answer == WriteAnswer::Failed {
            self.faults = self.faults.saturating_add(1);
        }
        answer
    }
}

/// What a write that was not cut short answers.
pub(crate) fn answer_of(write: io::Result<usize>) -> WriteAnswer
    requires { is_cut_short write ≡ false }
    ensures { result ≡ answer_of_write write }
{
    match write {
        Ok(0) => WriteAnswer::Failed,
        Ok(count) => WriteAnswer::Took(count),
        Err(_) => WriteAnswer::Failed,
    }
}
