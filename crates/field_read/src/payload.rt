//! The kinds of fields that are runs of bytes, texts among them.

ghost use Rattle.std.specs.Prelude.{◌≡◌, is_some, None};
ghost use Rattle.std.specs.List.{last_or};
ghost use Rattle.std.specs.Option.{option_copied};
ghost use Rattle.feed_defs.specs.Rows.{value_under, last_of, span_in, as_text};
ghost use Rattle.pb_wire.specs.Parts.{part_seen, payload_seen};
ghost use Rattle.answer_defs.specs.Defined.{AsDefined};
ghost use Rattle.field_read.specs.Causes.{cause_of};

use crate::fault::ReadFault;
use crate::fields::Fields;
use crate::iter::Spans;
use crate::slots::Occurs;
use pb_wire::{Part, PartPayload};
use rt_types::{Kind, Text, What};
use std::alloc::Global;

/// The run of bytes that a payload is, if it is one.
pub(crate) fn span<'a>(payload: &PartPayload<'a>) -> Option<&'a [u8]>
    ensures { option_copied result ≡ span_in (payload_seen payload.now) }
{
    match payload {
        PartPayload::Span(bytes) => Some(*bytes),
        _ => None,
    }
}

/// The bytes that the part carries, if it has this number and carries a run of bytes.
pub(crate) fn span_at<'a>(number: u32, part: &Part<'a>) -> Option<&'a [u8]>
    ensures { option_copied result ≡ value_under span_in number (part_seen part.now) }
{
    if part.number == number {
        span(&part.payload)
    } else {
        None
    }
}

/// Whether the part has this number and carries a run of bytes.
pub fn is_span(number: u32, part: &Part<'_>) -> bool
    ensures { result ≡ is_some (value_under span_in number (part_seen part.now)) }
{
    span_at(number, part).is_some()
}

/// The last run of bytes under this number, which is the one that counts.
fn last_span<'a>(number: u32, fields: &Fields<'_, 'a>) -> Option<&'a [u8]>
    ensures { option_copied result ≡ last_of span_in number fields.now }
{
    match fields.span(number) {
        Occurs::Never => None,
        Occurs::Once(bytes) => Some(bytes),
        Occurs::Several => last_of_several(fields.spans(number)),
    }
}

/// The last of these runs of bytes.
#[cold]
#[inline(never)]
fn last_of_several<'a>(spans: Spans<'a>) -> Option<&'a [u8]>
    ensures { option_copied result ≡ last_or None spans.entry }
{
    let mut found = None;
    for bytes in spans {
        found = Some(bytes);
    }
    found
}

/// The text under this number, of which the last counts and must be UTF-8.
pub fn text(
    alloc: Global,
    kind: Kind,
    number: u32,
    fields: &Fields<'_, '_>,
) -> Result<Option<Text>, ReadFault>
    ensures { AsDefined (λ x. x) cause_of
        (as_text kind number (last_of span_in number fields.now)) result }
{
    let Some(bytes) = last_span(number, fields) else {
        return Ok(None);
    };
    match str::from_utf8(bytes) {
        Ok(text) => Ok(Some(Text::new(alloc, text)?)),
        Err(_) => Err(ReadFault::Malformed {
            entity: 0,
            what: What::NotText,
            kind,
            field: number,
        }),
    }
}
