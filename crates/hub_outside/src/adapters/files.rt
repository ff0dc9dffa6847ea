//! The system's files.
ghost use Rattle.std.specs.IoError.{error_kind};
ghost use Rattle.std.specs.Prelude.{◌≡◌, ◌≢◌, ◌+◌, ◌<◌, ◌≤◌, [], None, IfErr, IfOk, OnOk};
ghost use Rattle.hub_outside.specs.Adapters.{files_cause, files_faults, files_system};
ghost use Rattle.hub_outside.specs.Buffer.{room_of};
ghost use Rattle.hub_outside.specs.Decisions.{answer_unopened};
ghost use Rattle.hub_outside.specs.Files.{AnswersFile, HasFileCause, IsFetched, TakesWhole, TellsCause};

use super::retry::read_once;
use crate::buffers::Buf;
use crate::file_stores::{FileAnswer, Files};
use std::io::{ErrorKind, Read};
use std::{fs, io, rt};

/// How many bytes are read at a time.
const PIECE: usize = 1 << 17;

/// The files of the system. A path with no file is absent, and so is one of which a folder is a
/// plain file. A folder, or a file that cannot be read, is a fault.
#[derive(Drop)]
pub struct StdFiles<R> {
    system: R,
    faults: u64,
    cause: Option<ErrorKind>,
}

impl<R: rt::Files> StdFiles<R> {
    /// The files of this runtime, with no fault yet.
    pub fn new(system: R) -> StdFiles<R>
        ensures system { files_system result ≡ system }
        ensures faults { files_faults result ≡ 0 }
        ensures cause { files_cause result ≡ None }
    {
        StdFiles {
            system,
            faults: 0,
            cause: None,
        }
    }

    /// Why the call that failed last failed; `None` where none has.
    pub fn last_cause(&self) -> Option<ErrorKind>
        ensures { result ≡ files_cause self.now }
    {
        self.cause
    }
}

impl<R: rt::Files> Files for StdFiles<R> {
    ghost contents = { λ _. None };

    ghost faults = { files_faults };

    ghost last_fault = { λ _. None };

    /// Reads the whole file, and keeps why it can't be read.
    fn read_file(&mut self, path: &str, limit: u64, into: &mut Buf) -> FileAnswer
        ensures answer { AnswersFile result None path.now limit into.new.bytes }
        ensures room { room_of into.old ≤ room_of into.new }
        ensures memory { result ≡ FileAnswer.NoMemory → room_of into.old < limit }
        ensures cause { HasFileCause result (files_faults self.old) (files_faults self.new) }
        ensures told { TellsCause result (files_cause self.old) (files_cause self.new) }
    {
        into.clear();
        match fetch(fs::open(&self.system, path), limit, into) {
            Ok(FileAnswer::Read) => FileAnswer::Read,
            Ok(answer) => {
                into.clear();
                answer
            }
            Err(cause) => {
                into.clear();
                self.faults = self.faults.saturating_add(1);
                self.cause = Some(cause);
                FileAnswer::Failed
            }
        }
    }
}

/// What the opening of a file comes to, its bytes read into the empty buffer as far as it goes; or
/// why it can't be read.
fn fetch<F: Read + Drop>(
    opened: io::Result<F>,
    limit: u64,
    into: &mut Buf,
) -> Result<FileAnswer, ErrorKind>
    requires { into.old.bytes ≡ [] }
    ensures unopened { IfErr opened (λ error. result ≡ answer_unopened (error_kind error)) }
    ensures opened { OnOk opened (IfOk result (λ answer. answer ≢ FileAnswer.Absent)) }
    ensures answer { IfOk result (λ answer. IsFetched answer limit into.new.bytes) }
    ensures room { room_of into.old ≤ room_of into.new }
    ensures memory { IfOk result (λ answer. answer ≡ FileAnswer.NoMemory
        → room_of into.old < limit) }
{
    match opened {
        Ok(mut file) => fetch_bytes(&mut file, limit, into),
        Err(error) => answer_unopened(error.kind()),
    }
}

/// What a file is that can't be opened; or why it can't be read.
fn answer_unopened(kind: ErrorKind) -> Result<FileAnswer, ErrorKind>
    ensures { result ≡ answer_unopened kind }
{
    match kind {
        ErrorKind::NotFound | ErrorKind::NotADirectory => Ok(FileAnswer::Absent),
        _ => Err(kind),
    }
}

/// The bytes of an open file, read into the empty buffer as far as it went; or why they can't be
/// read. It asks for memory only where no room is left, so a buffer with room for the limit serves
/// without any.
fn fetch_bytes<F: Read>(file: &mut F, limit: u64, into: &mut Buf) -> Result<FileAnswer, ErrorKind>
    requires { into.old.bytes ≡ [] }
    ensures answer { IfOk result (λ answer. IsFetched answer limit into.new.bytes) }
    ensures present { IfOk result (λ answer. answer ≢ FileAnswer.Absent) }
    ensures bytes { IfOk result (λ answer. TakesWhole answer
        (F.remaining file.old) (F.remaining file.new) into.new.bytes) }
    ensures room { room_of into.old ≤ room_of into.new }
    ensures memory { IfOk result (λ answer. answer ≡ FileAnswer.NoMemory
        → room_of into.old < limit) }
{
    'pieces: while (into.len() as u64) < limit {
        let missing = limit - into.len() as u64;
        let most = missing.min(PIECE as u64) as usize;
        let Ok(()) = into.reserve_if_full(most) else {
            return Ok(FileAnswer::NoMemory);
        };
        match into.read_from(file, most.min(into.spare())) {
            Ok(0) => return Ok(FileAnswer::Read),
            Ok(_) => {}
            Err(error) => return Err(error.kind()),
        }
    }
    end_at(file, limit)
}

/// Whether the file ends at the limit, where it was read up to there; or why that can't be read.
fn end_at<F: Read>(file: &mut F, limit: u64) -> Result<FileAnswer, ErrorKind>
    ensures answer { IfOk result (λ answer. IsFetched answer limit []) }
    ensures present { IfOk result (λ answer. answer ≢ FileAnswer.Absent) }
    ensures bytes { IfOk result (λ answer. TakesWhole answer
        (F.remaining file.old) (F.remaining file.new) []) }
    ensures memory { IfOk result (λ answer. answer ≢ FileAnswer.NoMemory) }
{
    let mut next = [0u8; 1];
    match read_once(file, &mut next) {
        Ok(0) => Ok(FileAnswer::Read),
        Ok(_) => too_long(limit),
        Err(error) => Err(error.kind()),
    }
}

/// A file with a byte behind the limit. Behind the last limit there is no number of bytes to
/// answer.
fn too_long(limit: u64) -> Result<FileAnswer, ErrorKind>
    ensures { IfOk result (λ answer. answer ≡ FileAnswer.TooLong (limit + 1)) }
{
    match limit.checked_add(1) {
        Some(seen) => Ok(FileAnswer::TooLong(seen)),
        None => Err(ErrorKind::FileTooLarge),
    }
}
