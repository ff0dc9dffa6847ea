//! A message from its fields.

ghost use Rattle.std.specs.Prelude.{◌≡◌, [], ◌∷◌, MatchResult};
ghost use Rattle.feed_defs.specs.Rows.{fields_in, unknown_bytes_of, required_value, value, Message as Table};
ghost use Rattle.pb_wire.specs.Parts.{part_seen};
ghost use Rattle.answer_defs.specs.Defined.{AsDefined, IsCause};
ghost use Rattle.field_read.specs.Causes.{cause_of};
ghost use Rattle.field_read.specs.Occurring.{AreNoted};
ghost use Rattle.feed_read.specs.Noting.{Notes};

use crate::NoMemory;
use field_read::{Fields, ReadFault, Slots, malformed};
use pb_wire::{Part, field_at};
use rt_types::{Bytes, Kind, What};
use std::alloc::Global;

/// A message of the reference, as its table says.
pub(crate) trait Message: Drop {
    ghost table: { Table Self };

    /// Its name.
    fn kind() -> Kind
        ensures { result ≡ table.kind };

    /// Whether the part is a field of this message.
    fn knows(part: &Part<'_>) -> bool
        ensures { result ≡ table.is_known (part_seen part.now) };

    /// A message to be filled, or out of memory.
    fn blank(alloc: Global) -> Result<Self, NoMemory>;

    /// Makes it the message of these fields and of the bytes of those that it doesn't know; or
    /// answers with the first fault in them.
    fn fill(
        &mut self,
        alloc: Global,
        fields: &Fields<'_, '_>,
        unknown: Bytes,
    ) -> Result<(), ReadFault>
        requires { unknown ≡ unknown_bytes_of table.is_known fields.now }
        ensures { AsDefined (λ _. self.new) cause_of (table.of_fields fields.now) result };
}

/// Notes each field of the bytes in its slot, and gives the bytes of those that the message doesn't
/// know, in order; or the first fault of the bytes.
#[inline(always)]
pub(crate) fn note_fields<'a, M: Message>(
    alloc: Global,
    bytes: &'a [u8],
    slots: &mut Slots<'a>,
) -> Result<Bytes, ReadFault>
    requires { AreNoted slots.old [] }
    ensures { MatchResult result (Notes M.table.is_known bytes.now slots.new)
        (λ e. IsCause (fields_in M.table.kind bytes.now) (cause_of e)) }
{
    let mut unknown = Vec::new(alloc);
    let mut rest = bytes;
    'fields: while !rest.is_empty() {
        match field_at(rest) {
            Ok((part, after)) => {
                slots.note(&part);
                if !M::knows(&part) {
                    unknown.extend_from_slice(part.raw)?;
                }
                rest = after;
            }
            Err(fault) => return Err(malformed(M::kind(), fault)),
        }
    }
    Ok(Bytes::from_vec(unknown))
}

/// Makes the message that of these bytes, or answers with the first fault in them.
pub(crate) fn read_into<M: Message>(
    alloc: Global,
    bytes: &[u8],
    message: &mut M,
) -> Result<(), ReadFault>
    ensures { AsDefined (λ _. message.new) cause_of (value M.table (bytes.now ∷ [])) result }
{
    let mut slots = Slots::new();
    let unknown = note_fields::<M>(alloc, bytes, &mut slots)?;
    message.fill(alloc, &Fields::new(bytes, &slots), unknown)
}

/// The message of these bytes, or the first fault in them.
pub(crate) fn read_one<M: Message>(alloc: Global, bytes: &[u8]) -> Result<M, ReadFault>
    ensures { AsDefined (λ x. x) cause_of (value M.table (bytes.now ∷ [])) result }
{
    let mut message = M::blank(alloc)?;
    read_into(alloc, bytes, &mut message)?;
    Ok(message)
}

/// The value of a required field, or that it is missing.
pub(crate) fn needed<A>(kind: Kind, number: u32, value: Option<A>) -> Result<A, ReadFault>
    ensures { AsDefined (λ x. x) cause_of (required_value kind number value) result }
{
    match value {
        Some(found) => Ok(found),
        None => Err(ReadFault::Malformed {
            entity: 0,
            what: What::Missing,
            kind,
            field: number,
        }),
    }
}
