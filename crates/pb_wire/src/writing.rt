//! The one spelling that a writer chooses: the shortest varints.

ghost use Rattle.std.specs.Prelude.{◌≡◌, ℕ, List, ◌+◌, ◌/◌, ◌++◌, ◌<◌, ◌≤◌, length, take, drop, OnOk, OnErr};
ghost use Rattle.pb_wire_defs.specs.Field.Payload.{Varint, Span, Four};
ghost use Rattle.pb_wire_defs.specs.Writing.{varint, field_bytes};

use crate::NoMemory;

/// The bytes of the longest varint.
const LONGEST_VARINT: usize = 10;

/// The least number whose varint has five groups. Instants of our time, in seconds since 1970, have
/// as many.
const LEAST_OF_FIVE: u64 = 268_435_456;

/// The least number whose varint has ten groups. Negative numbers, as 64 bits of two's complement,
/// are no less.
const LEAST_OF_TEN: u64 = 9_223_372_036_854_775_808;

/// Appends the shortest varint of the value (Protocol Buffers, "Encoding", "Base 128 Varints").
/// Want of memory leaves `out` as it was.
///
/// Most tags, lengths and numbers are below 128: in line, those are one push, and a tag is a
/// constant.
#[inline(always)]
pub fn write_varint(value: u64, out: &mut Vec<u8>) -> Result<(), NoMemory>
    ensures written { OnOk result (out.new.items ≡ out.old.items ++ varint value) }
    ensures kept { OnErr result (out.new.items ≡ out.old.items) }
{
    if value < 128 {
        out.push(value as u8)?;
        return Ok(());
    }
    write_long(value, out)
}

/// The same of larger numbers. Most of these are instants, delays of some minutes, or negative
/// delays, which have the greatest: those are appended in one piece.
#[inline(never)]
fn write_long(value: u64, out: &mut Vec<u8>) -> Result<(), NoMemory>
    ensures written { OnOk result (out.new.items ≡ out.old.items ++ varint value) }
    ensures kept { OnErr result (out.new.items ≡ out.old.items) }
{
    let fifth = value / LEAST_OF_FIVE;
    if 0 < fifth && fifth < 128 {
        return out.extend_from_slice(&five_groups(value, fifth));
    }
    let second = value / 128;
    if 0 < second && second < 128 {
        return out.extend_from_slice(&two_groups(value, second));
    }
    if value < LEAST_OF_TEN {
        return write_groups(value, out);
    }
    out.extend_from_slice(&ten_groups(value))
}

/// The varint of a number that has two groups, the last of which is given.
#[inline(always)]
fn two_groups(value: u64, last: u64) -> [u8; 2]
    requires last { last ≡ value / 128 }
    requires some { 0 < last }
    requires below { last < 128 }
    ensures { result ≡ varint value }
{
    [(value % 128) as u8 + 128, last as u8]
}

/// The varint of a number that has five groups, the last of which is given.
#[inline(always)]
fn five_groups(value: u64, last: u64) -> [u8; 5]
    requires last { last ≡ value / 268435456 }
    requires some { 0 < last }
    requires below { last < 128 }
    ensures { result ≡ varint value }
{
    [
        (value % 128) as u8 + 128,
        (value / 128 % 128) as u8 + 128,
        (value / 16_384 % 128) as u8 + 128,
        (value / 2_097_152 % 128) as u8 + 128,
        last as u8,
    ]
}

/// The varint of a number that has ten groups.
#[inline(always)]
fn ten_groups(value: u64) -> [u8; 10]
    requires { 9223372036854775808 ≤ value }
    ensures { result ≡ varint value }
{
    let second = value / 128;
    let third = second / 128;
    let fourth = third / 128;
    let fifth = fourth / 128;
    let sixth = fifth / 128;
    let seventh = sixth / 128;
    let eighth = seventh / 128;
    let ninth = eighth / 128;
    let last = ninth / 128;
    [
        (value % 128) as u8 + 128,
        (second % 128) as u8 + 128,
        (third % 128) as u8 + 128,
        (fourth % 128) as u8 + 128,
        (fifth % 128) as u8 + 128,
        (sixth % 128) as u8 + 128,
        (seventh % 128) as u8 + 128,
        (eighth % 128) as u8 + 128,
        (ninth % 128) as u8 + 128,
        last as u8,
    ]
}

/// Appends the shortest varint, group by group. Room for the longest varint is taken first, so that
/// no push runs out of memory.
fn write_groups(value: u64, out: &mut Vec<u8>) -> Result<(), NoMemory>
    ensures written { OnOk result (out.new.items ≡ out.old.items ++ varint value) }
    ensures kept { OnErr result (out.new.items ≡ out.old.items) }
{
    out.reserve(LONGEST_VARINT)?;
    let mut rest = value;
    'groups: while rest >= 128 {
        out.push_reserved((rest % 128) as u8 + 128);
        rest /= 128;
    }
    out.push_reserved(rest as u8);
    Ok(())
}

/// Puts the length of what stands behind the place, as its shortest varint, in place of the byte
/// there. So a run of bytes is written before its length is known: the byte is kept for it, and
/// only a longer length moves the run. What stands before the place stays, also where memory is
/// wanting.
pub fn write_length(place: usize, out: &mut Vec<u8>) -> Result<(), NoMemory>
    requires { place < length out.old.items }
    ensures written { OnOk result (out.new.items ≡ take place out.old.items
        ++ (varint (length (drop (place + 1) out.old.items)) ++ drop (place + 1) out.old.items)) }
    ensures kept { take place out.new.items ≡ take place out.old.items }
{
    let mut rest = out.len() - place - 1;
    let mut last = place;
    'groups: while rest >= 128 {
        out[last] = (rest % 128) as u8 + 128;
        last += 1;
        out.insert(last, 0)?;
        rest /= 128;
    }
    out[last] = rest as u8;
    Ok(())
}

/// Puts the length of what stands behind the two bytes at the place, as its shortest varint, in
/// place of these bytes. For runs of 128 to 16,383 bytes, which then don't move; a shorter or a
/// longer one moves. What stands before the place stays, also where memory is wanting.
pub fn write_long_length(place: usize, out: &mut Vec<u8>) -> Result<(), NoMemory>
    requires { place + 1 < length out.old.items }
    ensures written { OnOk result (out.new.items ≡ take place out.old.items
        ++ (varint (length (drop (place + 2) out.old.items)) ++ drop (place + 2) out.old.items)) }
    ensures kept { take place out.new.items ≡ take place out.old.items }
{
    let count = out.len() - place - 2;
    if 128 <= count && count < 16_384 {
        out[place] = (count % 128) as u8 + 128;
        out[place + 1] = (count / 128) as u8;
        return Ok(());
    }
    out.remove(place + 1);
    write_length(place, out)
}

/// Appends a field of wire type 0: its tag and the value, in shortest varints. Want of memory
/// leaves `out` as it was.
pub fn write_scalar(number: u32, value: u64, out: &mut Vec<u8>) -> Result<(), NoMemory>
    requires first { 1 ≤ number }
    requires last { number ≤ 536870911 }
    ensures written { OnOk result
        (out.new.items
        ≡ out.old.items ++ field_bytes (record { number = number; payload = Varint value })) }
    ensures kept { OnErr result (out.new.items ≡ out.old.items) }
{
    let length = out.len();
    let answer = append_scalar(number, value, out);
    if answer.is_err() {
        out.truncate(length);
    }
    answer
}

/// Appends a field of wire type 2: its tag, the length of the bytes and the bytes. Want of memory
/// leaves `out` as it was.
pub fn write_field(number: u32, bytes: &[u8], out: &mut Vec<u8>) -> Result<(), NoMemory>
    requires first { 1 ≤ number }
    requires last { number ≤ 536870911 }
    ensures written { OnOk result
        (out.new.items
        ≡ out.old.items ++ field_bytes (record { number = number; payload = Span bytes.now })) }
    ensures kept { OnErr result (out.new.items ≡ out.old.items) }
{
    let length = out.len();
    let answer = append_field(number, bytes, out);
    if answer.is_err() {
        out.truncate(length);
    }
    answer
}

/// Appends a field of wire type 5: its tag and the four bytes of the value, the lowest first. Want
/// of memory leaves `out` as it was.
pub fn write_four(number: u32, value: u32, out: &mut Vec<u8>) -> Result<(), NoMemory>
    requires first { 1 ≤ number }
    requires last { number ≤ 536870911 }
    ensures written { OnOk result
        (out.new.items
        ≡ out.old.items ++ field_bytes (record { number = number; payload = Four value })) }
    ensures kept { OnErr result (out.new.items ≡ out.old.items) }
{
    let length = out.len();
    let answer = append_four(number, value, out);
    if answer.is_err() {
        out.truncate(length);
    }
    answer
}

#[tactic(auto, unfolding(pb_wire_defs::specs::Writing::field_bytes, pb_wire_defs::specs::Writing::payload_bytes))]
fn append_scalar(number: u32, value: u64, out: &mut Vec<u8>) -> Result<(), NoMemory>
    requires { number ≤ 536870911 }
    ensures written { OnOk result
        (out.new.items
        ≡ out.old.items ++ field_bytes (record { number = number; payload = Varint value })) }
    ensures begins { OnErr result ((more : List ℕ) × (out.new.items ≡ out.old.items ++ more)) }
{
    write_varint(u64::from(number) * 8, out)?;
    write_varint(value, out)
}

#[tactic(auto, unfolding(pb_wire_defs::specs::Writing::field_bytes, pb_wire_defs::specs::Writing::payload_bytes))]
fn append_field(number: u32, bytes: &[u8], out: &mut Vec<u8>) -> Result<(), NoMemory>
    requires { number ≤ 536870911 }
    ensures written { OnOk result
        (out.new.items
        ≡ out.old.items ++ field_bytes (record { number = number; payload = Span bytes.now })) }
    ensures begins { OnErr result ((more : List ℕ) × (out.new.items ≡ out.old.items ++ more)) }
{
    write_varint(u64::from(number) * 8 + 2, out)?;
    write_varint(bytes.len() as u64, out)?;
    out.extend_from_slice(bytes)
}

#[tactic(auto, unfolding(pb_wire_defs::specs::Writing::field_bytes, pb_wire_defs::specs::Writing::payload_bytes))]
fn append_four(number: u32, value: u32, out: &mut Vec<u8>) -> Result<(), NoMemory>
    requires { number ≤ 536870911 }
    ensures written { OnOk result
        (out.new.items
        ≡ out.old.items ++ field_bytes (record { number = number; payload = Four value })) }
    ensures begins { OnErr result ((more : List ℕ) × (out.new.items ≡ out.old.items ++ more)) }
{
    write_varint(u64::from(number) * 8 + 5, out)?;
    out.extend_from_slice(&value.to_le_bytes())
}
