//! Files that tell why one can't be read.

ghost use Rattle.std.specs.Prelude.{◌≡◌, None, IfOk};
ghost use Rattle.hub_outside.specs.Adapters.{files_faults};
ghost use Rattle.hub_ports.specs.Reading.{files_in};

use crate::NoMemory;
use crate::telling::{tell, unread_line};
use hub_outside::{Buf, FileAnswer, Files, StdFiles, StdSink};
use std::alloc::Global;
use std::io::{ErrorKind, Write};
use std::rt;

/// The files of the system, for a feed. Why one can't be read is told on `E`, each time.
#[derive(Drop)]
pub struct ToldFiles<R, E> {
    files: StdFiles<R>,
    alloc: Global,
    feed: String,
    errors: E,
}

impl<R: rt::Files + Copy, E: Write + Copy> ToldFiles<R, E> {
    /// The files of this runtime for that feed, with no fault yet; or want of memory.
    pub fn new(system: R, alloc: Global, feed: &str, errors: E) -> Result<ToldFiles<R, E>, NoMemory>
        ensures { IfOk result (λ told. files_faults (files_in told) ≡ 0) }
    {
        let feed = String::from_str(alloc, feed)?;
        Ok(ToldFiles {
            files: StdFiles::new(system),
            alloc,
            feed,
            errors,
        })
    }

    /// Tells why a file can't be read. Without memory for the line there is none.
    fn tell_cause(&self, path: &str, cause: ErrorKind) {
        if let Ok(line) = unread_line(self.alloc, self.feed.as_str(), path, cause) {
            tell(&mut StdSink::new(self.errors), line.as_slice());
        }
    }
}

impl<R: rt::Files + Copy, E: Write + Copy> Files for ToldFiles<R, E> {
    ghost contents = { λ _. None };

    ghost faults = { λ told. files_faults (files_in told) };

    ghost last_fault = { λ _. None };

    /// Reads the whole file, and tells why it can't be read.
    fn read_file(&mut self, path: &str, limit: u64, into: &mut Buf) -> FileAnswer {
        let answer = self.files.read_file(path, limit, into);
        if answer == FileAnswer::Failed
            && let Some(cause) = self.files.last_cause()
        {
            self.tell_cause(path, cause);
        }
        answer
    }
}
