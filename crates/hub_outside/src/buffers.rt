//! A buffer that tells how much it takes without memory.
ghost use Rattle.std.specs.Prelude.{◌≡◌, ℕ, ◌+◌, ◌-◌, ◌<◌, ◌≤◌, min, [], ◌++◌, length, is_some, IsOk, OnOk, OnErr, IfOk};
ghost use Rattle.std.specs.Io.{StartsWith, appended_bytes};
ghost use Rattle.std.specs.Io.KnownBytes.{Consumes, IsAtEnd};
ghost use Rattle.hub_outside.specs.Buffer.{BufferContents, room_of, MakesRoom, contents_with, cleared_contents};
ghost use Rattle.hub_outside.specs.Source.{HasReadCause, IsReadWithin, ReadsBehind};

use crate::adapters::retry::read_once;
use crate::sources::{ReadAnswer, Source};
use std::alloc::{AllocError, Global};
use std::io;
use std::io::Read;
use std::marker::Model;

/// A growing buffer of bytes. Its `spare` says how many more bytes it takes without asking for
/// memory.
#[derive(Drop)]
pub struct Buf {
    items: Vec<u8>,
    // A vector promises that its capacity does not shrink, and not that it stays, so what is known
    // of the room that is left is counted here.
    spare: usize,
}

impl Model for Buf {
    ghost use Rattle.std.specs.Prelude.{◌+◌, ◌≤◌, vec_len, vec_capacity};
    ghost use Rattle.std.specs.Io.{StartsWith, appended_bytes};
    ghost use Rattle.std.specs.Io.KnownBytes.{Consumes, IsAtEnd};
    ghost use Rattle.hub_outside.specs.Buffer.{BufferContents};

    ghost Value = { BufferContents };

    ghost view = { λ buffer. record { bytes = buffer.items.items; spare = buffer.spare } };

    ghost invariant = { λ buffer. vec_len buffer.items + buffer.spare ≤ vec_capacity buffer.items };
}

impl Buf {
    /// An empty buffer with no room. It takes no memory.
    pub fn new(alloc: Global) -> Buf
        ensures { result ≡ record { bytes = []; spare = 0 } }
    {
        Buf {
            items: Vec::new(alloc),
            spare: 0,
        }
    }

    /// Makes `spare` at least `additional`. Room grows by doubling, so that many small pushes stay
    /// linear.
    pub fn reserve(&mut self, additional: usize) -> Result<(), AllocError>
        ensures ok { OnOk result (MakesRoom self.old self.new additional) }
        ensures err { OnErr result (self.new ≡ self.old) }
        ensures within { additional ≤ self.old.spare → IsOk result × (self.new ≡ self.old) }
    {
        if additional <= self.spare {
            return Ok(());
        }
        self.items.reserve(additional)?;
        self.spare = self.items.capacity() - self.items.len();
        Ok(())
    }

    /// Appends the bytes. It cannot fail where `spare` is at least their number, and then takes
    /// just that from `spare`. No room is lost in any case.
    pub fn push_all(&mut self, bytes: &[u8]) -> Result<(), AllocError>
        ensures ok { OnOk result (self.new.bytes ≡ self.old.bytes ++ bytes.now) }
        ensures within { length bytes.now ≤ self.old.spare → IsOk result
            × (self.new ≡ contents_with self.old bytes.now) }
        ensures err { OnErr result (self.new ≡ self.old) }
        ensures room { room_of self.old ≤ room_of self.new }
    {
        self.reserve(bytes.len())?;
        self.items.extend_from_slice(bytes)?;
        self.spare -= bytes.len();
        Ok(())
    }

    /// Empties the buffer. Its room stays: `spare` gets the length back.
    pub fn clear(&mut self)
        ensures { self.new ≡ cleared_contents self.old }
    {
        self.spare += self.items.len();
        self.items.clear();
    }

    /// One read of a source to the end of the buffer, of up to `most` bytes, which have to be to
    /// spare. The bytes are read to where they stay; a read that gives none leaves those before.
    pub fn take_from<S: Source>(&mut self, source: &mut S, most: usize) -> ReadAnswer
        requires some { 0 < most }
        requires spare { most ≤ self.old.spare }
        ensures within { IsReadWithin result most }
        ensures bytes { ReadsBehind result (S.left source.old) (S.left source.new) self.old.bytes
            self.new.bytes }
        ensures told { is_some (S.left source.new) ≡ is_some (S.left source.old) }
        ensures room { room_of self.new ≡ room_of self.old }
        ensures cause { HasReadCause result (S.faults source.old) (S.faults source.new) }
    {
        let start = self.items.len();
        let Ok(()) = self.items.resize(start + most, 0) else {
            unreachable!()
        };
        let answer = source.read(&mut self.items[start..]);
        let count = answer.count();
        self.items.truncate(start + count);
        self.spare -= count;
        answer
    }

    /// How many bytes it holds.
    pub fn len(&self) -> usize
        ensures { result ≡ length self.now.bytes }
    {
        self.items.len()
    }

    /// How many more bytes it takes without memory.
    pub fn spare(&self) -> usize
        ensures { result ≡ self.now.spare }
    {
        self.spare
    }

    /// Makes room for `additional` bytes where none at all is left.
    pub(crate) fn reserve_if_full(&mut self, additional: usize) -> Result<(), AllocError>
        ensures ok { OnOk result (MakesRoom self.old self.new (min additional 1)) }
        ensures full { OnErr result ((self.new ≡ self.old) × (self.old.spare ≡ 0)) }
    {
        if self.spare > 0 {
            return Ok(());
        }
        self.reserve(additional)
    }

    /// One read to the end of the buffer, of up to `most` bytes, which have to be to spare.
    pub(crate) fn read_from<R: Read>(&mut self, reader: &mut R, most: usize) -> io::Result<usize>
        requires { most ≤ self.old.spare }
        ensures count { IfOk result (λ n. (n ≤ most)
            × (length self.new.bytes ≡ length self.old.bytes + n)) }
        ensures err { OnErr result (length self.new.bytes ≡ length self.old.bytes) }
        ensures front { StartsWith self.new.bytes self.old.bytes }
        ensures bytes { Consumes (R.remaining reader.old) (R.remaining reader.new)
            (appended_bytes self.old.bytes self.new.bytes) }
        ensures end { IfOk result (λ n. n ≡ 0 → 0 < most → IsAtEnd (R.remaining reader.new)) }
        ensures room { room_of self.new ≡ room_of self.old }
    {
        let start = self.items.len();
        let Ok(()) = self.items.resize(start + most, 0) else {
            unreachable!()
        };
        let answer = read_once(reader, &mut self.items[start..]);
        let count = match &answer {
            Ok(count) => *count,
            Err(_) => 0,
        };
        self.items.truncate(start + count);
        self.spare -= count;
        answer
    }

    /// The bytes.
    pub fn as_slice(&self) -> &[u8]
        ensures { result.now ≡ self.now.bytes }
    {
        self.items.as_slice()
    }
}
