//! How each kind of field is written.

ghost use Rattle.std.specs.Prelude.{◌≡◌, ◌≤◌, [], ◌∷◌, ◌++◌, map, IfOk, OnOk};
ghost use Rattle.std.specs.List.{flat_map};
ghost use Rattle.std.specs.Option.{option_map};
ghost use Rattle.pb_wire_defs.specs.Field.Payload.{Span};
ghost use Rattle.pb_wire_defs.specs.Writing.{field_bytes};
ghost use Rattle.feed_defs.specs.Rows.{message_bytes, write_if, write_all, degrees_payload};
ghost use Rattle.feed_write.specs.Puts.{StartsWith, IsOpened};

use crate::NoMemory;
use crate::message::Message;
use crate::scalar::Scalar;
use pb_wire::{
    write_field, write_four, write_length, write_long_length, write_scalar, write_varint,
};
use rt_types::{Bytes, Degrees, Items, Shared, Text};

/// Appends a number, where there is one.
pub(crate) fn put_scalar<S: Scalar>(
    number: u32,
    value: Option<S>,
    out: &mut Vec<u8>,
) -> Result<(), NoMemory>
    requires first { 1 ≤ number }
    requires last { number ≤ 536870911 }
    ensures written { OnOk result (out.new.items
        ≡ out.old.items ++ flat_map field_bytes (write_if number S.payload value)) }
    ensures begins { StartsWith out.old.items out.new.items }
{
    match value {
        Some(value) => write_scalar(number, value.number(), out),
        None => Ok(()),
    }
}

/// Appends a text.
pub(crate) fn put_text(number: u32, text: &Text, out: &mut Vec<u8>) -> Result<(), NoMemory>
    requires first { 1 ≤ number }
    requires last { number ≤ 536870911 }
    ensures written { OnOk result (out.new.items
        ≡ out.old.items ++ field_bytes (record { number = number; payload = Span text.now })) }
    ensures begins { StartsWith out.old.items out.new.items }
{
    write_field(number, text.as_str().as_bytes(), out)
}

/// Appends a text, where there is one.
pub(crate) fn put_text_if(
    number: u32,
    text: &Option<Text>,
    out: &mut Vec<u8>,
) -> Result<(), NoMemory>
    requires first { 1 ≤ number }
    requires last { number ≤ 536870911 }
    ensures written { OnOk result (out.new.items
        ≡ out.old.items ++ flat_map field_bytes (write_if number Span text.now)) }
    ensures begins { StartsWith out.old.items out.new.items }
{
    match text {
        Some(text) => put_text(number, text, out),
        None => Ok(()),
    }
}

/// Appends degrees, as the four bytes of their float.
pub(crate) fn put_degrees(number: u32, value: Degrees, out: &mut Vec<u8>) -> Result<(), NoMemory>
    requires first { 1 ≤ number }
    requires last { number ≤ 536870911 }
    ensures written { OnOk result (out.new.items
        ≡ out.old.items
        ++ field_bytes (record { number = number; payload = degrees_payload value })) }
    ensures begins { StartsWith out.old.items out.new.items }
{
    write_four(number, value.bits, out)
}

/// Appends a message with the prefix before its ids of the timetable, as its length and its bytes.
pub(crate) fn put_message<M: Message>(
    number: u32,
    message: &M,
    prefix: &str,
    out: &mut Vec<u8>,
) -> Result<(), NoMemory>
    requires first { 1 ≤ number }
    requires last { number ≤ 536870911 }
    ensures written { OnOk result (out.new.items
        ≡ out.old.items
        ++ field_bytes (record {
          number = number;
          payload = Span
              (message_bytes M.table (M.renamed prefix.now message.now));
        })) }
    ensures begins { StartsWith out.old.items out.new.items }
{
    if message.is_long() {
        let place = open_long_message(number, out)?;
        message.put(prefix, out)?;
        return write_long_length(place, out);
    }
    let place = open_message(number, out)?;
    message.put(prefix, out)?;
    write_length(place, out)
}

/// Appends the tag of a message, and a byte that is kept for its length, which is known only behind
/// its content: it is enough for most. Gives the place of that byte.
pub(crate) fn open_message(number: u32, out: &mut Vec<u8>) -> Result<usize, NoMemory>
    requires { number ≤ 536870911 }
    ensures opened { IfOk result
        (λ place. IsOpened number (0 ∷ []) place out.old.items out.new.items) }
    ensures begins { StartsWith out.old.items out.new.items }
{
    let tag = u64::from(number) * 8 + 2;
    // In one piece, since an entity has some twenty messages in it.
    if tag < 128 {
        out.extend_from_slice(&[tag as u8, 0])?;
        return Ok(out.len() - 1);
    }
    write_varint(tag, out)?;
    let place = out.len();
    out.push(0)?;
    Ok(place)
}

/// The same with two bytes for its length, which are enough for nearly all that are longer.
pub(crate) fn open_long_message(number: u32, out: &mut Vec<u8>) -> Result<usize, NoMemory>
    requires { number ≤ 536870911 }
    ensures opened { IfOk result
        (λ place. IsOpened number (0 ∷ 0 ∷ []) place out.old.items out.new.items) }
    ensures begins { StartsWith out.old.items out.new.items }
{
    let place = open_message(number, out)?;
    out.push(0)?;
    Ok(place)
}

/// Appends a message with the prefix before its ids of the timetable, where there is one.
pub(crate) fn put_embedded<M: Message>(
    number: u32,
    message: &Option<M>,
    prefix: &str,
    out: &mut Vec<u8>,
) -> Result<(), NoMemory>
    requires first { 1 ≤ number }
    requires last { number ≤ 536870911 }
    ensures written { OnOk result (out.new.items
        ≡ out.old.items
        ++ flat_map field_bytes (write_if number (λ x. Span
        (message_bytes M.table x)) (option_map (M.renamed prefix.now) message.now))) }
    ensures begins { StartsWith out.old.items out.new.items }
{
    match message {
        Some(message) => put_message(number, message, prefix, out),
        None => Ok(()),
    }
}

/// Appends a shared message with the prefix before its ids of the timetable, where there is one.
pub(crate) fn put_shared<M: Message>(
    number: u32,
    message: &Option<Shared<M>>,
    prefix: &str,
    out: &mut Vec<u8>,
) -> Result<(), NoMemory>
    requires first { 1 ≤ number }
    requires last { number ≤ 536870911 }
    ensures written { OnOk result (out.new.items
        ≡ out.old.items
        ++ flat_map field_bytes (write_if number (λ x. Span
        (message_bytes M.table x)) (option_map (M.renamed prefix.now) message.now))) }
    ensures begins { StartsWith out.old.items out.new.items }
{
    match message {
        Some(message) => put_message(number, message.get(), prefix, out),
        None => Ok(()),
    }
}

/// Appends the messages with the prefix before their ids of the timetable, each as a field of that
/// number.
fn put_all<M: Message>(
    number: u32,
    messages: &[M],
    prefix: &str,
    out: &mut Vec<u8>,
) -> Result<(), NoMemory>
    requires first { 1 ≤ number }
    requires last { number ≤ 536870911 }
    ensures written { OnOk result (out.new.items
        ≡ out.old.items
        ++ flat_map field_bytes (write_all number M.table
        (map (M.renamed prefix.now) messages.now))) }
    ensures begins { StartsWith out.old.items out.new.items }
{
    for message in messages {
        put_message(number, message, prefix, out)?;
    }
    Ok(())
}

/// Appends the messages of a repeated field with the prefix before their ids of the timetable.
pub(crate) fn put_items<M: Message>(
    number: u32,
    messages: &Items<M>,
    prefix: &str,
    out: &mut Vec<u8>,
) -> Result<(), NoMemory>
    requires first { 1 ≤ number }
    requires last { number ≤ 536870911 }
    ensures written { OnOk result (out.new.items
        ≡ out.old.items
        ++ flat_map field_bytes (write_all number M.table
        (map (M.renamed prefix.now) messages.now))) }
    ensures begins { StartsWith out.old.items out.new.items }
{
    put_all(number, messages.as_slice(), prefix, out)
}

/// Appends the fields that a message doesn't know, as they came.
pub(crate) fn put_unknown(bytes: &Bytes, out: &mut Vec<u8>) -> Result<(), NoMemory>
    ensures written { OnOk result (out.new.items ≡ out.old.items ++ bytes.now) }
    ensures begins { StartsWith out.old.items out.new.items }
{
    let unknown = bytes.as_slice();
    // Hardly any message has some, and there are ten messages to an entity.
    if unknown.is_empty() {
        return Ok(());
    }
    out.extend_from_slice(unknown)
}
