//! The bytes of the script that were read and not yet used.
ghost use Rattle.std.specs.Prelude.{◌≡◌, ◌≤◌, ◌<◌, ◌+◌, ℕ, [], take, drop, length, OnOk};
ghost use Rattle.hub_outside.specs.Source.{IsReadWithin, TakesBytes, HasReadCause};
ghost use Rattle.script_lines.specs.Window.{Windowed, fresh, Refills, HasRefillCause};

use crate::NoMemory;
use hub_outside::{ReadAnswer, Source};
use std::alloc::Global;
use std::marker::Model;

/// The least room for one read, in bytes.
const PIECE: usize = 65_536;

/// The most bytes of a script.
pub const LONGEST_SCRIPT: u64 = 1_099_511_627_776;

/// What reading on came to.
pub enum Refill {
    /// There are more bytes, one at least.
    More,
    /// No byte follows: the input ended, or the script has all the bytes that it may have.
    End,
    /// The input failed.
    Failed,
    /// Memory ran out.
    NoMemory,
}

/// One buffer for all that is read: the bytes in hand stand between `start` and `end`.
#[derive(Drop)]
pub struct Window {
    bytes: Vec<u8>,
    start: usize,
    end: usize,
    // How many more bytes the script may have.
    allowed: u64,
}

impl Model for Window {
    ghost use Rattle.std.specs.Prelude.{◌≤◌, ◌-◌, take, drop, vec_len};
    ghost use Rattle.script_lines.specs.Window.{Windowed};

    ghost Value = { Windowed };

    ghost view = { λ w. record {
      held = take (w.end - w.start) (drop w.start w.bytes.items);
      allowed = w.allowed;
      room = vec_len w.bytes - w.end;
    } };

    ghost invariant = { λ w. (w.start ≤ w.end) × (w.end ≤ vec_len w.bytes) };
}

impl Window {
    /// Nothing in hand, and a whole script to come. It takes no memory.
    pub fn new(alloc: Global) -> Window
        ensures { result ≡ fresh }
    {
        Window {
            bytes: Vec::new(alloc),
            start: 0,
            end: 0,
            allowed: LONGEST_SCRIPT,
        }
    }

    /// The bytes in hand.
    pub fn held(&self) -> &[u8]
        ensures { result.now ≡ self.now.held }
    {
        &self.bytes[self.start..self.end]
    }

    /// Lets go of the first bytes in hand.
    pub fn pass(&mut self, count: usize)
        requires { count ≤ length self.old.held }
        ensures held { self.new.held ≡ drop count self.old.held }
        ensures allowed { self.new.allowed ≡ self.old.allowed }
    {
        self.start += count;
        if self.start == self.end {
            self.start = 0;
            self.end = 0;
        }
    }

    /// Reads on behind the bytes in hand.
    pub fn read_more<S: Source>(&mut self, input: &mut S) -> Refill
        ensures refills { Refills result self.old self.new (S.left input.old) (S.left input.new) }
        ensures cause { HasRefillCause result (S.faults input.old) (S.faults input.new) }
    {
        if self.allowed == 0 {
            return Refill::End;
        }
        if self.make_room().is_err() {
            return Refill::NoMemory;
        }
        self.read_piece(input)
    }

    /// One read into the room behind the bytes in hand.
    fn read_piece<S: Source>(&mut self, input: &mut S) -> Refill
        requires room { 0 < self.old.room }
        requires allowed { 0 < self.old.allowed }
        ensures refills { Refills result self.old self.new (S.left input.old) (S.left input.new) }
        ensures cause { HasRefillCause result (S.faults input.old) (S.faults input.new) }
    {
        let room = self.bytes.len() - self.end;
        let most = if self.allowed < room as u64 {
            self.allowed as usize
        } else {
            room
        };
        match read_behind(input, &mut self.bytes, self.end, most) {
            ReadAnswer::Got(count) => {
                self.end += count;
                self.allowed -= count as u64;
                Refill::More
            }
            ReadAnswer::End => Refill::End,
            ReadAnswer::Failed => Refill::Failed,
        }
    }

    /// Makes room for a piece. What is in hand moves to the front only once the buffer's end is
    /// reached, and the buffer at least doubles where half of it is in use, so all moves together
    /// stay linear.
    fn make_room(&mut self) -> Result<(), NoMemory>
        ensures held { self.new.held ≡ self.old.held }
        ensures allowed { self.new.allowed ≡ self.old.allowed }
        ensures room { OnOk result (0 < self.new.room) }
    {
        if self.bytes.len() - self.end >= PIECE {
            return Ok(());
        }
        self.move_to_front();
        let count = self.end;
        let wanted = count.saturating_add(PIECE).saturating_mul(2);
        if self.bytes.len() < wanted {
            self.bytes.resize(wanted, 0)?;
        }
        Ok(())
    }

    /// Moves what is in hand to the front of the buffer.
    fn move_to_front(&mut self)
        ensures held { self.new.held ≡ self.old.held }
        ensures allowed { self.new.allowed ≡ self.old.allowed }
    {
        let count = self.end - self.start;
        if self.start > 0 {
            self.bytes.copy_within(self.start..self.end, 0);
            self.start = 0;
            self.end = count;
        }
    }
}

/// One read of up to `most` bytes behind the first `end` bytes of a buffer, which stay.
fn read_behind<S: Source>(input: &mut S, bytes: &mut [u8], end: usize, most: usize) -> ReadAnswer
    requires some { 0 < most }
    requires within { end + most ≤ length bytes.old }
    ensures within { IsReadWithin result most }
    ensures front { take end bytes.new ≡ take end bytes.old }
    ensures bytes { TakesBytes result (S.left input.old) (S.left input.new) (drop end bytes.new) }
    ensures cause { HasReadCause result (S.faults input.old) (S.faults input.new) }
{
    input.read(&mut bytes[end..end + most])
}
