//! The kinds of fields that are messages: singular ones, merged of all their occurrences, and
//! repeated ones.

ghost use Rattle.std.specs.Prelude.{◌≡◌, [], ◌∷◌, MatchResult};
ghost use Rattle.feed_defs.specs.Rows.{occurrences_of, span_in, fields_of_all, merged_message, value, values, with_entity_number, numbered_values};
ghost use Rattle.answer_defs.specs.Defined.{AsDefined, IsCause};
ghost use Rattle.field_read.specs.Causes.{cause_of};
ghost use Rattle.feed_read.specs.Noting.{Appends, Joins};

use crate::message::{Message, note_fields, read_into, read_one};
use field_read::{Fields, Occurs, ReadFault, Slots, Spans};
use rt_types::{Items, Shared};
use std::alloc::Global;

/// The most values that room is made for before the first is read: what bytes promise may be more
/// than memory holds.
const MOST_ROOM: usize = 64;

/// Sets the place to the singular message under this number, made of all its occurrences together.
pub(crate) fn embedded<M: Message>(
    alloc: Global,
    number: u32,
    fields: &Fields<'_, '_>,
    place: &mut Option<M>,
) -> Result<(), ReadFault>
    ensures { AsDefined (λ _. place.new) cause_of
        (merged_message M.table (occurrences_of span_in number fields.now)) result }
{
    match fields.span(number) {
        Occurs::Never => {
            *place = None;
            Ok(())
        }
        Occurs::Once(bytes) => {
            *place = Some(M::blank(alloc)?);
            match place {
                Some(message) => read_into(alloc, bytes, message),
                None => unreachable!(),
            }
        }
        Occurs::Several => {
            *place = merged(alloc, fields.spans(number))?;
            Ok(())
        }
    }
}

/// The message of these payloads together, if there is one.
#[cold]
#[inline(never)]
fn merged<M: Message>(alloc: Global, payloads: Spans<'_>) -> Result<Option<M>, ReadFault>
    ensures { AsDefined (λ x. x) cause_of (merged_message M.table payloads.entry) result }
{
    match joined::<M>(alloc, payloads)? {
        Some(bytes) => Ok(Some(read_one(alloc, bytes.as_slice())?)),
        None => Ok(None),
    }
}

/// The payloads one after another, if there is one, or the first fault in them: each must be fields
/// by itself.
fn joined<M: Message>(alloc: Global, payloads: Spans<'_>) -> Result<Option<Vec<u8>>, ReadFault>
    ensures { MatchResult result (Joins M.table.kind payloads.entry)
        (λ e. IsCause (fields_of_all M.table.kind payloads.entry) (cause_of e)) }
{
    let mut bytes = Vec::new(alloc);
    let mut found = false;
    for payload in payloads {
        let _unknown = note_fields::<M>(alloc, payload, &mut Slots::new())?;
        bytes.extend_from_slice(payload)?;
        found = true;
    }
    Ok(found.then_some(bytes))
}

/// The singular message under this number, to be shared.
pub(crate) fn shared<M: Message>(
    alloc: Global,
    number: u32,
    fields: &Fields<'_, '_>,
) -> Result<Option<Shared<M>>, ReadFault>
    ensures { AsDefined (λ x. x) cause_of
        (merged_message M.table (occurrences_of span_in number fields.now)) result }
{
    let mut message = None;
    embedded(alloc, number, fields, &mut message)?;
    match message {
        Some(message) => Ok(Some(Shared::new(alloc, message)?)),
        None => Ok(None),
    }
}

/// The messages with that of these bytes after them, which is filled where it stays; or the first
/// fault in it.
fn with_read<M: Message>(alloc: Global, bytes: &[u8], messages: Vec<M>) -> Result<Vec<M>, ReadFault>
    ensures { MatchResult result
        (λ all. Appends (value M.table (bytes.now ∷ [])) messages.items all.items)
        (λ e. IsCause (value M.table (bytes.now ∷ [])) (cause_of e)) }
{
    let mut messages = messages;
    let last = messages.len();
    messages.push(M::blank(alloc)?)?;
    read_into(alloc, bytes, &mut messages[last])?;
    Ok(messages)
}

/// The messages of the repeated field with this number, each of its own payload.
pub(crate) fn all<M: Message>(
    alloc: Global,
    number: u32,
    fields: &Fields<'_, '_>,
) -> Result<Items<M>, ReadFault>
    ensures { AsDefined (λ x. x) cause_of
        (values M.table (occurrences_of span_in number fields.now)) result }
{
    let mut items = Vec::with_capacity(alloc, fields.count(number).min(MOST_ROOM))?;
    for bytes in fields.spans(number) {
        items = with_read(alloc, bytes, items)?;
    }
    Ok(Items::new(items))
}

/// The same, with a fault that tells this entity.
fn with_placed<M: Message>(
    alloc: Global,
    entity: u32,
    bytes: &[u8],
    messages: Vec<M>,
) -> Result<Vec<M>, ReadFault>
    ensures { MatchResult result
        (λ all. Appends (with_entity_number entity (value M.table (bytes.now ∷ [])))
        messages.items all.items)
        (λ e. IsCause (with_entity_number entity (value M.table (bytes.now ∷ []))) (cause_of e)) }
{
    match with_read(alloc, bytes, messages) {
        Err(
            ReadFault::Malformed {
                what,
                kind,
                field,
                ..
            },
        ) => Err(ReadFault::Malformed {
            entity,
            what,
            kind,
            field,
        }),
        other => other,
    }
}

/// The messages of the repeated field with this number, whose faults tell which of them they are
/// in.
pub(crate) fn numbered<M: Message>(
    alloc: Global,
    number: u32,
    fields: &Fields<'_, '_>,
) -> Result<Items<M>, ReadFault>
    ensures { AsDefined (λ x. x) cause_of
        (numbered_values M.table 0 (occurrences_of span_in number fields.now)) result }
{
    let mut items = Vec::with_capacity(alloc, fields.count(number).min(MOST_ROOM))?;
    let mut entity = 0u32;
    for bytes in fields.spans(number) {
        entity = entity.saturating_add(1);
        items = with_placed(alloc, entity, bytes, items)?;
    }
    Ok(Items::new(items))
}
