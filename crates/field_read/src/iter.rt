//! The fields of bytes one after another.

ghost use Rattle.std.specs.Prelude.{◌≡◌};
ghost use Rattle.std.specs.Iterator.{YieldsFirstBy, item_count};
ghost use Rattle.feed_defs.specs.Rows.{occurrences_of, span_in};
ghost use Rattle.pb_wire.specs.Parts.{part_seen};
ghost use Rattle.field_read.specs.Occurring.{IsWhole, told_fields};

use crate::payload::span_at;
use pb_wire::{Part, field_at};
use std::marker::Model;

/// The fields of bytes, one after another. A contract sees the list of those that are left.
#[derive(Drop)]
pub(crate) struct Parts<'a> {
    rest: &'a [u8],
}

impl<'a> Model for Parts<'a> {
    ghost use Rattle.std.specs.Prelude.{List};
    ghost use Rattle.pb_wire_defs.specs.Field.{Field};

    ghost Value = { List Field };

    ghost use Rattle.field_read.specs.Occurring.{IsWhole, told_fields};

    ghost view = { λ parts. told_fields parts.rest.now };

    ghost invariant = { λ parts. IsWhole parts.rest.now };
}

impl<'a> Parts<'a> {
    /// The fields of these bytes.
    pub(crate) fn new(bytes: &'a [u8]) -> Parts<'a>
        requires { IsWhole bytes.now }
        ensures { result ≡ told_fields bytes.now }
    {
        Parts { rest: bytes }
    }
}

impl<'a> Iterator for Parts<'a> {
    type Item = Part<'a>;

    ghost next_gives = { YieldsFirstBy part_seen (λ left. left) };

    ghost remaining = { item_count (λ left. left) };

    #[inline(always)]
    fn next(&mut self) -> Option<Part<'a>> {
        match field_at(self.rest) {
            Ok((part, after)) => {
                self.rest = after;
                Some(part)
            }
            Err(_) => None,
        }
    }
}

/// The runs of bytes under one number, one after another. A contract sees the list of those that
/// are left.
#[derive(Drop)]
pub struct Spans<'a> {
    number: u32,
    parts: Parts<'a>,
}

impl<'a> Model for Spans<'a> {
    ghost use Rattle.std.specs.Prelude.{ℕ, List};

    ghost Value = { List (List ℕ) };

    ghost use Rattle.feed_defs.specs.Rows.{occurrences_of, span_in};

    ghost view = { λ spans. occurrences_of span_in spans.number spans.parts };
}

impl<'a> Spans<'a> {
    /// The runs of bytes under this number among these fields.
    pub(crate) fn new(number: u32, parts: Parts<'a>) -> Spans<'a>
        ensures { result ≡ occurrences_of span_in number parts.entry }
    {
        Spans { number, parts }
    }
}

impl<'a> Iterator for Spans<'a> {
    type Item = &'a [u8];

    ghost next_gives = { YieldsFirstBy (λ bytes. bytes.now) (λ left. left) };

    ghost remaining = { item_count (λ left. left) };

    fn next(&mut self) -> Option<&'a [u8]> {
        'parts: while let Some(part) = self.parts.next() {
            if let Some(bytes) = span_at(self.number, &part) {
                return Some(bytes);
            }
        }
        None
    }
}
