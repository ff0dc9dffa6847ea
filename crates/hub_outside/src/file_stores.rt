//! Whole files, by path.
ghost use Rattle.std.specs.Prelude.{◌≡◌, ℕ, ◌<◌, ◌≤◌, List, Option};
ghost use Rattle.hub_outside.specs.Files.{AnswersFile, HasFileCause, TellsPlace};
ghost use Rattle.hub_outside.specs.Buffer.{room_of};

use crate::buffers::Buf;

/// What reading one file came to.
#[derive(Clone, Copy, Debug, PartialEq, Eq)]
pub enum FileAnswer {
    /// The buffer holds the file's bytes, no more than the limit.
    Read,
    /// There is no file of that path.
    Absent,
    /// The file is longer than the limit: so many of its bytes were seen, more than the limit.
    TooLong(u64),
    /// The outside failed: the count of faults rose.
    Failed,
    /// There was no memory for the bytes of a file that is within the limit, as far as it was read.
    NoMemory,
}

/// Files to be read, as those of the system or a list in memory.
pub trait Files {
    // The files by path, where they are told: pairs of a path and its bytes, of which the first of
    // a path counts.
    ghost contents: { Self → Option (List (List ℕ × List ℕ)) };

    // How many calls failed so far.
    ghost faults: { Self → ℕ };

    // The path of the call that failed last, where it is told.
    ghost last_fault: { Self → Option (List ℕ) };

    /// Reads the whole file at `path`, of up to `limit` bytes, into `into`, which is cleared first.
    /// All answers but [`FileAnswer::Read`] leave it empty.
    fn read_file(&mut self, path: &str, limit: u64, into: &mut Buf) -> FileAnswer
        ensures answer { AnswersFile result (contents self.old) path.now limit into.new.bytes }
        ensures contents { contents self.new ≡ contents self.old }
        ensures room { room_of into.old ≤ room_of into.new }
        ensures memory { result ≡ FileAnswer.NoMemory → room_of into.old < limit }
        ensures cause { HasFileCause result (faults self.old) (faults self.new) }
        ensures place { TellsPlace result (last_fault self.new) path.now };
}
