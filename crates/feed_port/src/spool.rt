//! Messages of a folder.

ghost use Rattle.std.specs.Prelude.{◌≡◌, ◌≤◌, IfOk};
ghost use Rattle.feed_defs.specs.History.{longest_message};
ghost use Rattle.hub_outside.specs.Buffer.{room_of};
ghost use Rattle.feed_port.specs.Ports.{Answers, GoesOnToTell, HasPortCause};
ghost use Rattle.feed_port.specs.Spooling.{spool_files, spool_folder, spool_number, spool_ahead, NextNumber};

use crate::NoMemory;
use crate::paths::SpoolPath;
use crate::port::{FeedPort, PortAnswer};
use feed_defs::LONGEST_MESSAGE;
use hub_outside::{Buf, FileAnswer, Files};
use rt_types::Text;
use std::alloc::Global;

/// The number behind that of the last file that may be there.
const PAST_LAST: u32 = 1_000_000;

/// A port over the files `000001.pb`, `000002.pb` and so on of a folder, up to the first that is
/// absent. A file that could not be read is read again by the next ask.
#[derive(Drop)]
pub struct SpoolPort<F> {
    files: F,
    path: SpoolPath,
    number: u32,
}

impl<F: Files + Send + Drop> SpoolPort<F> {
    /// The port of a folder, from its first file on; or want of memory for the longest path.
    pub fn new(alloc: Global, files: F, folder: Text) -> Result<SpoolPort<F>, NoMemory>
        ensures files { IfOk result (λ port. spool_files port ≡ files) }
        ensures folder { IfOk result (λ port. spool_folder port ≡ folder) }
        ensures number { IfOk result (λ port. spool_number port ≡ 1) }
    {
        Ok(SpoolPort {
            files,
            path: SpoolPath::new(alloc, folder)?,
            number: 1,
        })
    }
}

impl<F: Files + Send + Drop> FeedPort for SpoolPort<F> {
    ghost ahead = { λ port. spool_ahead (spool_folder port) (spool_number port)
        (F.contents (spool_files port)) };

    ghost faults = { λ port. F.faults (spool_files port) };

    /// Reads the next file. A failure leaves its number.
    fn next(&mut self, into: &mut Buf) -> PortAnswer
        requires room { longest_message ≤ room_of into.old }
        ensures room { longest_message ≤ room_of into.new }
        ensures answer { Answers result
            (spool_ahead (spool_folder self.old) (spool_number self.old)
            (F.contents (spool_files self.old)))
            (spool_ahead (spool_folder self.new) (spool_number self.new)
            (F.contents (spool_files self.new))) into.new.bytes }
        ensures told { GoesOnToTell
            (spool_ahead (spool_folder self.old) (spool_number self.old)
            (F.contents (spool_files self.old)))
            (spool_ahead (spool_folder self.new) (spool_number self.new)
            (F.contents (spool_files self.new)))
            (F.faults (spool_files self.old)) (F.faults (spool_files self.new)) }
        ensures cause { HasPortCause result (F.faults (spool_files self.old))
            (F.faults (spool_files self.new)) }
        ensures contents { F.contents (spool_files self.new)
            ≡ F.contents (spool_files self.old) }
        ensures folder { spool_folder self.new ≡ spool_folder self.old }
        ensures number { NextNumber result (spool_number self.old) (spool_number self.new) }
    {
        if self.number >= PAST_LAST {
            into.clear();
            return PortAnswer::End;
        }
        self.path.write(self.number);
        let path = self.path.as_str();
        match self.files.read_file(path, LONGEST_MESSAGE as u64, into) {
            FileAnswer::Read => {
                self.number += 1;
                PortAnswer::Message
            }
            FileAnswer::TooLong(size) => {
                self.number += 1;
                PortAnswer::TooLong(size)
            }
            FileAnswer::Absent => PortAnswer::End,
            FileAnswer::Failed => PortAnswer::Failed,
            FileAnswer::NoMemory => unreachable!(),
        }
    }
}
