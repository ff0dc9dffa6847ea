//! A reader of std as a source.
ghost use Rattle.std.specs.Prelude.{◌≡◌, ◌<◌, None, length, false};
ghost use Rattle.hub_outside.specs.Adapters.{reader_of, reader_faults};
ghost use Rattle.hub_outside.specs.Decisions.{answer_of_read, is_cut_short};
ghost use Rattle.hub_outside.specs.Source.{IsReadWithin, TakesBytes, HasReadCause};

use super::retry::read_once;
use crate::sources::{ReadAnswer, Source};
use std::io;
use std::io::Read;

/// A reader of std, as standard input or a socket. An error is a fault.
#[derive(Drop)]
pub struct StdSource<R> {
    reader: R,
    faults: u64,
}

impl<R: Read> StdSource<R> {
    /// A source over the reader, with no fault yet.
    pub fn new(reader: R) -> StdSource<R>
        ensures reader { reader_of result ≡ reader }
        ensures faults { reader_faults result ≡ 0 }
    {
        StdSource { reader, faults: 0 }
    }
}

impl<R: Read> Source for StdSource<R> {
    ghost left = { λ _. None };

    ghost faults = { reader_faults };

    /// Reads once, and again where a signal cut the read short. Where the reader itself knows its
    /// bytes, they are the ones that are given.
    fn read(&mut self, into: &mut [u8]) -> ReadAnswer
        requires { 0 < length into.old }
        ensures within { IsReadWithin result (length into.old) }
        ensures cause { HasReadCause result (reader_faults self.old) (reader_faults self.new) }
        ensures reads { TakesBytes result
            (R.remaining (reader_of self.old)) (R.remaining (reader_of self.new)) into.new }
    {
        let answer = answer_of(read_once(&mut self.reader, into));
        if answer == ReadAnswer::Failed {
            self.faults = self.faults.saturating_add(1);
        }
        answer
    }
}

/// What a read that was not cut short answers.
pub(crate) fn answer_of(read: io::Result<usize>) -> ReadAnswer
    requires { is_cut_short read ≡ false }
    ensures { result ≡ answer_of_read read }
{
    match read {
        Ok(0) => ReadAnswer::End,
        Ok(count) => ReadAnswer::Got(count),
        Err(_) => ReadAnswer::Failed,
    }
}
