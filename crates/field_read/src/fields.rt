//! The fields of a message, of which each was read once.

ghost use Rattle.std.specs.Prelude.{◌≡◌, List, [], ◌∷◌, length};
ghost use Rattle.pb_wire_defs.specs.Reading.{fields_of};
ghost use Rattle.feed_defs.specs.Rows.{occurrences_of, span_in};
ghost use Rattle.pb_wire.specs.Parts.{payload_seen};
ghost use Rattle.field_read.specs.Occurring.{AreNoted, IsWhole, Tells, payloads_under, told_fields};

use crate::iter::{Parts, Spans};
use crate::payload::span;
use crate::slots::{Occurs, Slots};
use pb_wire::PartPayload;
use std::marker::Model;

/// The fields of a message's bytes, with the slots that they fill. A contract sees the list of the
/// fields.
///
/// What occurs once under its number is found in its slot; the bytes are gone over again only for
/// what occurs there several times.
#[derive(Drop)]
pub struct Fields<'s, 'a> {
    bytes: &'a [u8],
    slots: &'s Slots<'a>,
}

impl<'s, 'a> Model for Fields<'s, 'a> {
    ghost use Rattle.std.specs.Prelude.{List};
    ghost use Rattle.pb_wire_defs.specs.Field.{Field};

    ghost Value = { List Field };

    ghost use Rattle.field_read.specs.Occurring.{AreNoted, IsWhole, told_fields};

    ghost view = { λ fields. told_fields fields.bytes.now };

    ghost invariant = { λ fields. (IsWhole fields.bytes.now)
        × (AreNoted fields.slots.now (told_fields fields.bytes.now)) };
}

impl<'s, 'a> Fields<'s, 'a> {
    /// The fields of these bytes, which the slots note.
    pub fn new(bytes: &'a [u8], slots: &'s Slots<'a>) -> Fields<'s, 'a>
        requires whole { IsWhole bytes.now }
        requires noted { AreNoted slots.now (told_fields bytes.now) }
        ensures { result ≡ told_fields bytes.now }
    {
        Fields { bytes, slots }
    }

    /// The fields, one after another.
    pub(crate) fn parts(&self) -> Parts<'a>
        ensures { result ≡ self.now }
    {
        Parts::new(self.bytes)
    }

    /// The runs of bytes under this number, one after another.
    pub fn spans(&self, number: u32) -> Spans<'a>
        ensures { result ≡ occurrences_of span_in number self.now }
    {
        Spans::new(number, self.parts())
    }

    /// What the fields of this number carry.
    #[inline(always)]
    pub(crate) fn payload(&self, number: u32) -> Occurs<PartPayload<'a>>
        ensures { Tells payload_seen result (payloads_under number self.now) }
    {
        self.slots.payload(number)
    }

    /// The run of bytes under this number.
    #[inline(always)]
    pub fn span(&self, number: u32) -> Occurs<&'a [u8]>
        ensures { Tells (λ bytes. bytes.now) result (occurrences_of span_in number self.now) }
    {
        match self.payload(number) {
            Occurs::Never => Occurs::Never,
            Occurs::Once(payload) => match span(&payload) {
                Some(bytes) => Occurs::Once(bytes),
                None => Occurs::Never,
            },
            Occurs::Several => Occurs::Several,
        }
    }

    /// How many fields there may be of this number: a hint for how much room they take.
    pub fn count(&self, number: u32) -> usize {
        self.slots.count(number)
    }
}
