//! The paths of a folder's files, by their numbers.

ghost use Rattle.std.specs.Prelude.{◌≡◌, ◌+◌, ◌<◌, ◌≤◌, ◌++◌, ◌∷◌, [], length, map, string_bytes, string_len, string_capacity, IfOk};
ghost use Rattle.feed_port.specs.Spools.{path_in, digit_at, worths};

use crate::NoMemory;
use rt_types::Text;
use std::alloc::Global;
use std::marker::Model;

/// How many bytes a file's name has, with the slash in front of it.
const NAME: usize = 10;

/// The path of a file of a folder, one at a time. A contract sees the folder and that path.
#[derive(Drop)]
pub(crate) struct SpoolPath {
    folder: Text,
    path: String,
}

impl Model for SpoolPath {
    ghost use Rattle.std.specs.Prelude.{◌+◌, ◌≤◌, length, string_bytes, string_capacity};
    ghost use Rattle.feed_port.specs.Spools.{PathState};

    ghost Value = { PathState };

    ghost view = { λ path. record { folder = path.folder; written = string_bytes path.path } };

    ghost invariant = { λ path. length path.folder + 10 ≤ string_capacity path.path };
}

impl SpoolPath {
    /// Room for the paths of a folder; or want of memory.
    pub(crate) fn new(alloc: Global, folder: Text) -> Result<SpoolPath, NoMemory>
        ensures { IfOk result (λ path. path ≡ record { folder = folder; written = [] }) }
    {
        let Some(room) = folder.as_str().len().checked_add(NAME) else {
            return Err(NoMemory);
        };
        let path = String::with_capacity(alloc, room)?;
        Ok(SpoolPath { folder, path })
    }

    /// Writes the path of the file with that number.
    pub(crate) fn write(&mut self, number: u32)
        ensures { self.new ≡ record self.old { written = path_in self.old.folder number } }
    {
        self.path.clear();
        push(&mut self.path, self.folder.as_str());
        push(&mut self.path, "/");
        push_digits(&mut self.path, number);
        push(&mut self.path, ".pb");
    }

    /// The path that was written last.
    pub(crate) fn as_str(&self) -> &str
        ensures { result.now ≡ self.now.written }
    {
        self.path.as_str()
    }
}

/// Appends a text for which there is room.
fn push(path: &mut String, text: &str)
    requires { string_len path.old + length text.now ≤ string_capacity path.old }
    ensures bytes { string_bytes path.new ≡ string_bytes path.old ++ text.now }
    ensures len { string_len path.new ≡ string_len path.old + length text.now }
    ensures room { string_capacity path.old ≤ string_capacity path.new }
{
    let Ok(()) = path.push_str(text) else {
        unreachable!()
    };
}

/// Appends the six digits of a number, for which there is room.
fn push_digits(path: &mut String, number: u32)
    requires { string_len path.old + 6 ≤ string_capacity path.old }
    ensures bytes { string_bytes path.new ≡ string_bytes path.old ++ map (digit_at number) worths }
    ensures len { string_len path.new ≡ string_len path.old + 6 }
    ensures room { string_capacity path.old ≤ string_capacity path.new }
{
    push_digit(path, number, 100_000);
    push_digit(path, number, 10_000);
    push_digit(path, number, 1_000);
    push_digit(path, number, 100);
    push_digit(path, number, 10);
    push_digit(path, number, 1);
}

/// Appends the digit that is worth so much, for which there is room.
fn push_digit(path: &mut String, number: u32, worth: u32)
    requires some { 0 < worth }
    requires room { string_len path.old + 1 ≤ string_capacity path.old }
    ensures bytes { string_bytes path.new ≡ string_bytes path.old ++ digit_at number worth ∷ [] }
    ensures len { string_len path.new ≡ string_len path.old + 1 }
    ensures room { string_capacity path.old ≤ string_capacity path.new }
{
    let digit = b'0' + (number / worth % 10) as u8;
    let Ok(()) = path.push(digit as char) else {
        unreachable!()
    };
}
