//! Payloads in front of a byte list.

ghost use Rattle.std.specs.Prelude.{◌≡◌, ℕ, List};
ghost use Rattle.pb_wire_defs.specs.Field.{deepest_group};
ghost use Rattle.pb_wire_defs.specs.Reading.{payload_at, group_at};
ghost use Rattle.pb_wire.specs.Parts.{payload_seen, Finds};

use crate::fault::WireFault;
use crate::groups::group_at;
use crate::numbers::{eight_at, four_at, span_at, varint_at};
use crate::part::PartPayload;

/// The payload that the wire type asks for in a field of that number, and the bytes behind it.
#[inline(always)]
pub fn payload_at(
    number: u32,
    wire_type: u32,
    bytes: &[u8],
) -> Result<(PartPayload<'_>, &[u8]), WireFault>
    ensures { Finds (λ x. (payload_seen x.0, x.1.now)) result
        (payload_at (group_at deepest_group) number wire_type bytes.now) }
{
    if wire_type == 3 {
        let rest = group_at(number, bytes)?;
        return Ok((PartPayload::Group, rest));
    }
    plain_payload_at(wire_type, bytes)
}

/// The payload that the wire type asks for, where none may be a group, and the bytes behind it.
/// Each field passes here: as a call of its own it takes twice the time.
#[tactic(auto, unfolding(pb_wire_defs::specs::Reading::payload_at))]
#[inline(always)]
pub fn plain_payload_at(wire_type: u32, bytes: &[u8]) -> Result<(PartPayload<'_>, &[u8]), WireFault>
    ensures { Finds (λ x. (payload_seen x.0, x.1.now)) result
        (payload_at (group_at 0) 0 wire_type bytes.now) }
{
    match wire_type {
        0 => {
            let (value, rest) = varint_at(bytes)?;
            Ok((PartPayload::Varint(value), rest))
        }
        1 => {
            let (value, rest) = eight_at(bytes)?;
            Ok((PartPayload::Eight(value), rest))
        }
        2 => {
            let (content, rest) = span_at(bytes)?;
            Ok((PartPayload::Span(content), rest))
        }
        5 => {
            let (value, rest) = four_at(bytes)?;
            Ok((PartPayload::Four(value), rest))
        }
        _ => Err(WireFault::Group),
    }
}
