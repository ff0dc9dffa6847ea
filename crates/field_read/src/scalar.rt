//! The kinds of fields that are numbers on the wire (Protocol Buffers, "Encoding", "More Integer
//! Types").

ghost use Rattle.std.specs.Prelude.{◌≡◌, ℕ, ◌%◌, ◌^◌, Option, is_some};
ghost use Rattle.std.specs.Option.{option_and_then};
ghost use Rattle.pb_wire_defs.specs.Field.{Payload};
ghost use Rattle.feed_defs.specs.Rows.{value_under, last_of, varint_in, four_in, u32_in, i32_in, i64_in, bool_in, degrees_in};
ghost use Rattle.pb_wire.specs.Parts.{payload_seen, part_seen};

use crate::fields::Fields;
use crate::slots::Occurs;
use pb_wire::{Part, PartPayload};
use rt_types::Degrees;

/// A value that is a number on the wire.
pub trait Scalar: Copy {
    ghost says: { Payload → Option Self };

    /// What the payload says; `None` where it isn't of this kind, or names no value of it.
    fn said(payload: &PartPayload<'_>) -> Option<Self>
        ensures { result ≡ says (payload_seen payload.now) };
}

/// The number of a varint.
fn varint(payload: &PartPayload<'_>) -> Option<u64>
    ensures { result ≡ varint_in (payload_seen payload.now) }
{
    match payload {
        PartPayload::Varint(number) => Some(*number),
        _ => None,
    }
}

/// The low 32 bits of a varint, which number the values of an enum.
pub(crate) fn low_bits(payload: &PartPayload<'_>) -> Option<u32>
    ensures { result
        ≡ option_and_then (λ n. Some (n % 2 ^ 32)) (varint_in (payload_seen payload.now)) }
{
    match varint(payload) {
        Some(number) => Some((number % (1 << 32)) as u32),
        None => None,
    }
}

impl Scalar for u64 {
    ghost says = { varint_in };

    fn said(payload: &PartPayload<'_>) -> Option<u64> {
        varint(payload)
    }
}

impl Scalar for u32 {
    ghost says = { u32_in };

    fn said(payload: &PartPayload<'_>) -> Option<u32> {
        low_bits(payload)
    }
}

impl Scalar for i32 {
    ghost says = { i32_in };

    fn said(payload: &PartPayload<'_>) -> Option<i32> {
        match low_bits(payload) {
            Some(number) => Some(number.cast_signed()),
            None => None,
        }
    }
}

impl Scalar for i64 {
    ghost says = { i64_in };

    fn said(payload: &PartPayload<'_>) -> Option<i64> {
        match varint(payload) {
            Some(number) => Some(number.cast_signed()),
            None => None,
        }
    }
}

impl Scalar for bool {
    ghost says = { bool_in };

    fn said(payload: &PartPayload<'_>) -> Option<bool> {
        match varint(payload) {
            Some(number) => Some(number != 0),
            None => None,
        }
    }
}

impl Scalar for Degrees {
    ghost says = { degrees_in };

    fn said(payload: &PartPayload<'_>) -> Option<Degrees> {
        match payload {
            PartPayload::Four(bits) => Some(Degrees { bits: *bits }),
            _ => None,
        }
    }
}

/// What the part says, if it has this number.
pub fn said_at<S: Scalar>(number: u32, part: &Part<'_>) -> Option<S>
    ensures { result ≡ value_under S.says number (part_seen part.now) }
{
    if part.number == number {
        S::said(&part.payload)
    } else {
        None
    }
}

/// Whether the part has this number and says a value of this kind.
pub fn is_scalar<S: Scalar>(number: u32, part: &Part<'_>) -> bool
    ensures { result ≡ is_some (value_under S.says number (part_seen part.now)) }
{
    said_at::<S>(number, part).is_some()
}

/// The last value that is said under this number, which is the one that counts.
pub fn last<S: Scalar>(number: u32, fields: &Fields<'_, '_>) -> Option<S>
    ensures { result ≡ last_of S.says number fields.now }
{
    match fields.payload(number) {
        Occurs::Never => None,
        Occurs::Once(payload) => S::said(&payload),
        Occurs::Several => last_of_several(number, fields),
    }
}

/// The same, of fields that are gone over.
#[cold]
#[inline(never)]
#[tactic(auto, unfolding(feed_defs::specs::Rows::last_of))]
fn last_of_several<S: Scalar>(number: u32, fields: &Fields<'_, '_>) -> Option<S>
    ensures { result ≡ last_of S.says number fields.now }
{
    let mut found = None;
    for part in fields.parts() {
        found = said_at(number, &part).or(found);
    }
    found
}
