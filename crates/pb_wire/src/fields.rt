//! The fields of a byte list, as places.

ghost use Rattle.std.specs.Prelude.{◌≡◌, ◌+◌, ◌<◌, ◌^◌, List, All, length, IfOk};
ghost use Rattle.answer_defs.specs.Defined.{AsDefined};
ghost use Rattle.pb_wire_defs.specs.Field as wire;
ghost use Rattle.pb_wire_defs.specs.Spelling.{HasFields};
ghost use Rattle.pb_wire_defs.specs.Reading.{fields_of};
ghost use Rattle.pb_wire.specs.Parts.{part_seen, payload_seen, cause_of};
ghost use Rattle.pb_wire.specs.Places.{fields_in, LiesWithin, AreInRow, FitsIn, place, placed_fields};

use crate::fault::WireFault;
use crate::field::{Field, Payload};
use crate::part::{Part, PartPayload};
use crate::reading::field_at;
use std::alloc::Global;

/// The fields that the bytes spell, in order, one behind another (Protocol Buffers, "Encoding",
/// "Message Structure").
pub fn read_fields(alloc: Global, bytes: &[u8]) -> Result<Vec<Field>, WireFault>
    // What is read is spelled so.
    ensures found { IfOk result (λ v. HasFields bytes.now (fields_in bytes.now v.items)) }
    // Its places lie in the bytes, and leave no byte out.
    ensures within { IfOk result (λ v. All (LiesWithin (length bytes.now)) v.items) }
    ensures row { IfOk result (λ v. AreInRow 0 (length bytes.now) v.items) }
    // What is spelled so is read, unless memory runs out.
    ensures only { (fields : List wire.Field) → HasFields bytes.now fields
        → AsDefined (λ v. fields_in bytes.now v.items) cause_of (Ok fields) result }
    ensures none { (fault : WireFault) → result ≡ Err fault → (fault ≡ WireFault.NoMemory → ⊥)
        → (fields : List wire.Field) → HasFields bytes.now fields → ⊥ }
    // It is what reading from the left gives, the first fault too.
    ensures exact { AsDefined (λ v. fields_in bytes.now v.items) cause_of
        (fields_of bytes.now) result }
{
    placed_fields(alloc, bytes)
}

fn placed_fields(alloc: Global, bytes: &[u8]) -> Result<Vec<Field>, WireFault>
    ensures { AsDefined (λ v. v.items) cause_of (placed_fields (fields_of bytes.now)) result }
{
    let mut fields = Vec::new(alloc);
    let mut at = 0usize;
    let mut rest = bytes;
    'fields: while !rest.is_empty() {
        match field_at(rest) {
            Ok((part, after)) => {
                let field = placed(part, at);
                at = field.end;
                fields.push(field)?;
                rest = after;
            }
            Err(fault) => return Err(fault),
        }
    }
    Ok(fields)
}

/// The part by its places, where it starts at this place.
fn placed(part: Part<'_>, start: usize) -> Field
    requires fits { start + length part.raw.now < 2 ^ 64 }
    requires carried { FitsIn (payload_seen part.payload) (length part.raw.now) }
    ensures { result ≡ place start (part_seen part.entry) }
{
    let end = start + part.raw.len();
    let payload = match part.payload {
        PartPayload::Varint(value) => Payload::Varint(value),
        PartPayload::Eight(value) => Payload::Eight(value),
        PartPayload::Span(content) => Payload::Span(end - content.len(), end),
        PartPayload::Four(value) => Payload::Four(value),
        PartPayload::Group => Payload::Group,
    };
    Field {
        number: part.number,
        payload,
        start,
        end,
    }
}
