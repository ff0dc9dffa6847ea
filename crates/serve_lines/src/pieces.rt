//! Pieces of a text.

ghost use Rattle.std.specs.Prelude.{◌≡◌, ℕ, ◌≤◌, ◌++◌, Option, List};
ghost use Rattle.std.specs.Fmt.{decimal};
ghost use Rattle.serve_lines.specs.Wrote.{Wrote, Puts, HasCause};

use hub_outside::{OutputFault, Sink, write_all};
use itoa::Buffer;

/// How writing went so far.
#[derive(Clone, Copy, Debug, PartialEq, Eq)]
pub enum Writing {
    /// All was written.
    Whole,
    /// The output failed: its count of faults rose. Nothing more is written.
    Cut,
}

/// Writes a piece, where all before it was written.
pub(crate) fn put<K: Sink>(out: &mut K, writing: &mut Writing, bytes: &[u8])
    ensures wrote { Puts writing.old writing.new (K.written out.old) (K.written out.new) bytes.now }
    ensures cause { HasCause writing.old writing.new (K.faults out.old) (K.faults out.new) }
{
    match *writing {
        Writing::Cut => {}
        Writing::Whole => match write_all(out, bytes) {
            Ok(()) => {}
            Err(OutputFault) => *writing = Writing::Cut,
        },
    }
}

/// Writes a word and a number.
pub(crate) fn put_number<K: Sink>(out: &mut K, writing: &mut Writing, word: &[u8], number: u64)
    ensures wrote { Puts writing.old writing.new (K.written out.old) (K.written out.new)
        (word.now ++ decimal number) }
    ensures cause { HasCause writing.old writing.new (K.faults out.old) (K.faults out.new) }
{
    let mut digits = Buffer::new();
    put(out, writing, word);
    put(out, writing, digits.format(number).as_bytes());
}
