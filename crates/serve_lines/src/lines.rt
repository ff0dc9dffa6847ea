//! The lines.

ghost use Rattle.serve_lines.specs.Lines.{feed_line, readers_line};
ghost use Rattle.serve_lines.specs.Wrote.{Puts, HasCause};

use crate::pieces::{Writing, put, put_number};
use hub_outside::Sink;

/// What is told of a feed at the end.
#[derive(Clone, Copy, Debug, PartialEq, Eq)]
pub struct FeedNumbers {
    /// How many of its messages were accepted.
    pub accepted: u64,
    /// How many were refused, for another cause than want of memory.
    pub refused: u64,
    /// How many were refused for want of memory.
    pub starved: u64,
    /// How many had more bytes than a message may have.
    pub too_long: u64,
    /// The stamp of the last one that was accepted, in seconds since 1970; 0 if there is none.
    pub last: u64,
}

/// What is told of all readers at the end.
#[derive(Clone, Copy, Debug, PartialEq, Eq)]
pub struct ReaderNumbers {
    /// How many there were.
    pub readers: u64,
    /// How many connections they served.
    pub connections: u64,
    /// How many responses were written whole.
    pub responses: u64,
    /// How many connections ended for want of memory.
    pub starved: u64,
}

/// Writes the line of the feed of that name. It takes no memory.
pub fn write_feed<K: Sink>(out: &mut K, writing: &mut Writing, name: &str, numbers: FeedNumbers)
    ensures wrote { Puts writing.old writing.new (K.written out.old) (K.written out.new)
        (feed_line name.now numbers) }
    ensures cause { HasCause writing.old writing.new (K.faults out.old) (K.faults out.new) }
{
    put(out, writing, b"feed ");
    put(out, writing, name.as_bytes());
    put_number(out, writing, b" accepted ", numbers.accepted);
    put_number(out, writing, b" refused ", numbers.refused);
    put_number(out, writing, b" starved ", numbers.starved);
    put_number(out, writing, b" toolong ", numbers.too_long);
    put_number(out, writing, b" last ", numbers.last);
    put(out, writing, b"\n");
}

/// Writes the line of the readers. It takes no memory.
pub fn write_readers<K: Sink>(out: &mut K, writing: &mut Writing, numbers: ReaderNumbers)
    ensures wrote { Puts writing.old writing.new (K.written out.old) (K.written out.new)
        (readers_line numbers) }
    ensures cause { HasCause writing.old writing.new (K.faults out.old) (K.faults out.new) }
{
    put_number(out, writing, b"readers ", numbers.readers);
    put_number(out, writing, b" connections ", numbers.connections);
    put_number(out, writing, b" responses ", numbers.responses);
    put_number(out, writing, b" starved ", numbers.starved);
    put(out, writing, b"\n");
}
