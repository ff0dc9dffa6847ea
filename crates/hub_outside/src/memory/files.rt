//! Files in memory.
ghost use Rattle.std.specs.Prelude.{◌≡◌, ◌↔◌, ℕ, ◌<◌, ◌≤◌, List, Option, Some, None, IfSome, IsTrue};
ghost use Rattle.std.specs.List.{find};
ghost use Rattle.std.specs.Option.{option_copied};
ghost use Rattle.std.specs.Str.{bytes_eq};
ghost use Rattle.std.specs.String.{string_bytes};
ghost use Rattle.hub_outside.specs.Files.{AnswersFile, HasFileCause, TellsPlace};
ghost use Rattle.hub_outside.specs.Buffer.{room_of};
ghost use Rattle.hub_outside.specs.Calls.{no_calls, is_failing};
ghost use Rattle.hub_outside.specs.Memory.{ReadsStored, files_in, store_fault, store_faults};

use super::calls::Calls;
use crate::buffers::Buf;
use crate::file_stores::{FileAnswer, Files};
use std::alloc::Global;
use std::marker::Model;

/// A file in memory. Contracts see it as the pair of its path and its bytes, both lists of bytes.
#[derive(Drop)]
pub struct MemoryFile {
    /// The path by which it is asked for, as it is written there: `a/b` and `a//b` are two paths.
    pub path: String,
    /// Its contents.
    pub bytes: Vec<u8>,
}

impl Model for MemoryFile {
    ghost use Rattle.std.specs.Prelude.{ℕ, List, string_bytes};

    ghost Value = { List ℕ × List ℕ };

    ghost view = { λ file. (string_bytes file.path, file.bytes.items) };
}

/// Files in memory, of which the first of a path counts, with faults as they were told. They keep
/// the path of the call that failed last, as far as there is memory for it.
#[derive(Drop)]
pub struct MemoryFiles {
    files: Vec<MemoryFile>,
    calls: Calls,
    /// The path of the call that failed last.
    pub(crate) fault: Option<String>,
}

impl Model for MemoryFiles {
    ghost use Rattle.std.specs.Option.{option_map};
    ghost use Rattle.std.specs.Prelude.{string_bytes};
    ghost use Rattle.hub_outside.specs.Memory.{StoreState};

    ghost Value = { StoreState };

    ghost view = { λ s. record {
      files = s.files.items;
      calls = s.calls;
      fault = option_map string_bytes s.fault;
    } };
}

impl MemoryFiles {
    /// These files. The calls whose numbers, from 1 on, are in `failing` fail. It takes no memory.
    pub fn new(files: Vec<MemoryFile>, failing: Vec<u64>) -> MemoryFiles
        ensures { result ≡ record {
          files = files.items;
          calls = no_calls failing.items;
          fault = None;
        } }
    {
        MemoryFiles {
            files,
            calls: Calls::new(failing),
            fault: None,
        }
    }
}

impl Files for MemoryFiles {
    ghost contents = { λ s. Some (files_in s) };

    ghost faults = { store_faults };

    ghost last_fault = { store_fault };

    /// Copies the file's bytes. It fails exactly where its call is listed. A file that is too long
    /// is answered with its length.
    fn read_file(&mut self, path: &str, limit: u64, into: &mut Buf) -> FileAnswer
        ensures answer { AnswersFile result (Some (files_in self.old)) path.now limit
            into.new.bytes }
        ensures room { room_of into.old ≤ room_of into.new }
        ensures memory { result ≡ FileAnswer.NoMemory → room_of into.old < limit }
        ensures cause { HasFileCause result (store_faults self.old) (store_faults self.new) }
        ensures fails { (result ≡ FileAnswer.Failed) ↔ IsTrue (is_failing self.old.calls) }
        ensures place { TellsPlace result (store_fault self.new) path.now }
        ensures after { ReadsStored result self.old self.new path.now }
    {
        into.clear();
        if self.calls.begin() {
            self.fault = copy_of(*self.files.allocator(), path);
            return FileAnswer::Failed;
        }
        let Some(file) = first_at(&self.files, path) else {
            return FileAnswer::Absent;
        };
        let length = file.bytes.len() as u64;
        if limit < length {
            return FileAnswer::TooLong(length);
        }
        let Ok(()) = into.push_all(&file.bytes) else {
            return FileAnswer::NoMemory;
        };
        FileAnswer::Read
    }
}

/// A copy of the path, where there is memory for it.
fn copy_of(alloc: Global, path: &str) -> Option<String>
    ensures { IfSome result (λ copy. string_bytes copy ≡ path.now) }
{
    String::from_str(alloc, path).ok()
}

/// The first file of that path.
fn first_at<'a>(files: &'a [MemoryFile], path: &str) -> Option<&'a MemoryFile>
    ensures { option_copied result ≡ find (λ file. bytes_eq file.0 path.now) files.now }
{
    files.iter().find(|file| file.path.as_str() == path)
}
