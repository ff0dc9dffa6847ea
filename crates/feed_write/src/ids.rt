//! Texts that are written piece by piece, so that none is made: ids under a prefix.

ghost use Rattle.std.specs.Prelude.{◌≡◌, ◌≤◌, ◌++◌, length, IfSome, OnOk};
ghost use Rattle.std.specs.List.{flat_map};
ghost use Rattle.std.specs.Option.{option_map};
ghost use Rattle.pb_wire_defs.specs.Field.Payload.{Span};
ghost use Rattle.pb_wire_defs.specs.Writing.{field_bytes};
ghost use Rattle.feed_defs.specs.Renamed.{prefixed};
ghost use Rattle.feed_defs.specs.Rows.{write_if};
ghost use Rattle.feed_write.specs.Puts.{StartsWith};

use crate::NoMemory;
use pb_wire::{write_field, write_varint};
use rt_types::Text;

/// Appends an id of the timetable behind the prefix, where there is one. An empty id stays empty.
pub(crate) fn put_id(
    number: u32,
    id: &Option<Text>,
    prefix: &str,
    out: &mut Vec<u8>,
) -> Result<(), NoMemory>
    requires first { 1 ≤ number }
    requires last { number ≤ 536870911 }
    ensures written { OnOk result (out.new.items
        ≡ out.old.items
        ++ flat_map field_bytes (write_if number Span (option_map (prefixed prefix.now) id.now))) }
    ensures begins { StartsWith out.old.items out.new.items }
{
    match id {
        Some(id) => put_prefixed(number, prefix, id.as_str(), out),
        None => Ok(()),
    }
}

/// Appends an id behind the prefix. An empty id stays empty.
fn put_prefixed(number: u32, prefix: &str, id: &str, out: &mut Vec<u8>) -> Result<(), NoMemory>
    requires first { 1 ≤ number }
    requires last { number ≤ 536870911 }
    ensures written { OnOk result (out.new.items
        ≡ out.old.items
        ++ field_bytes (record { number = number; payload = Span (prefixed prefix.now id.now) })) }
    ensures begins { StartsWith out.old.items out.new.items }
{
    if id.is_empty() || prefix.is_empty() {
        return write_field(number, id.as_bytes(), out);
    }
    put_joined(number, prefix, "", id, out)
}

/// Appends a text that is made of three pieces.
#[tactic(auto, unfolding(pb_wire_defs::specs::Writing::field_bytes, pb_wire_defs::specs::Writing::payload_bytes), using(crate::proofs::Spelling::puts))]
pub(crate) fn put_joined(
    number: u32,
    front: &str,
    middle: &str,
    back: &str,
    out: &mut Vec<u8>,
) -> Result<(), NoMemory>
    requires { number ≤ 536870911 }
    ensures written { OnOk result (out.new.items
        ≡ out.old.items
        ++ field_bytes (record {
          number = number;
          payload = Span
              (front.now ++ (middle.now ++ back.now));
        })) }
    ensures begins { StartsWith out.old.items out.new.items }
{
    let length = joined_length(front, middle, back).ok_or(NoMemory)?;
    write_varint(u64::from(number) * 8 + 2, out)?;
    write_varint(length as u64, out)?;
    out.extend_from_slice(front.as_bytes())?;
    out.extend_from_slice(middle.as_bytes())?;
    out.extend_from_slice(back.as_bytes())
}

/// The length of the three pieces together; none where it doesn't fit, as no memory could hold
/// them.
fn joined_length(front: &str, middle: &str, back: &str) -> Option<usize>
    ensures { IfSome result (λ total. total ≡ length (front.now ++ (middle.now ++ back.now))) }
{
    front
        .len()
        .checked_add(middle.len())?
        .checked_add(back.len())
}
