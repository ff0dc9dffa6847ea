//! Groups: fields between a start tag and an end tag of the same number.

ghost use Rattle.std.specs.Prelude.{◌≡◌, List};
ghost use Rattle.pb_wire_defs.specs.Field.{deepest_group};
ghost use Rattle.pb_wire_defs.specs.Reading.{group_at};
ghost use Rattle.pb_wire.specs.Parts.{Finds};

use crate::fault::WireFault;
use crate::numbers::tag_at;
use crate::payloads::plain_payload_at;

/// The bytes behind a group of that number, from behind its start tag on (Protocol Buffers,
/// "Encoding", "Groups"). The numbers of the open groups stand in an array, so that nesting takes
/// no stack. Groups are rare, so their array is kept off the path of the other fields.
#[inline(never)]
pub fn group_at(number: u32, bytes: &[u8]) -> Result<&[u8], WireFault>
    ensures { Finds (λ x. x.now) result (group_at deepest_group number bytes.now) }
{
    let mut open = [number; 64];
    let mut depth = 1usize;
    let mut rest = bytes;
    'fields: while depth > 0 {
        let (tag, after) = tag_at(rest)?;
        match tag % 8 {
            3 => {
                if depth == 64 {
                    return Err(WireFault::Group);
                }
                open[depth] = tag / 8;
                depth += 1;
                rest = after;
            }
            4 => {
                if open[depth - 1] != tag / 8 {
                    return Err(WireFault::Group);
                }
                depth -= 1;
                rest = after;
            }
            wire_type => {
                let (_, behind) = plain_payload_at(wire_type, after)?;
                rest = behind;
            }
        }
    }
    Ok(rest)
}
