//! The field in front of a byte list, as a borrow.

ghost use Rattle.pb_wire_defs.specs.Reading.{field_at};
ghost use Rattle.pb_wire.specs.Parts.{part_seen, Finds};

use crate::fault::WireFault;
use crate::numbers::tag_at;
use crate::part::Part;
use crate::payloads::payload_at;

/// The field in front of the bytes, and the bytes after it; or the fault there, also where there
/// are no bytes (Protocol Buffers, "Encoding", "Message Structure").
///
/// Each field of a message passes here: in line, what it answers stays in registers.
#[tactic(auto, unfolding(pb_wire_defs::specs::Reading::field_at, pb_wire_defs::specs::Reading::field_with))]
#[inline(always)]
pub fn field_at(bytes: &[u8]) -> Result<(Part<'_>, &[u8]), WireFault>
    ensures { Finds (λ x. (part_seen x.0, x.1.now)) result (field_at bytes.now) }
{
    let (tag, rest) = tag_at(bytes)?;
    let (payload, after) = payload_at(tag / 8, tag % 8, rest)?;
    Ok((
        Part {
            number: tag / 8,
            payload,
            raw: &bytes[..bytes.len() - after.len()],
        },
        after,
    ))
}
