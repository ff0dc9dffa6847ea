//! A message whose entities are read on several threads.

ghost use Rattle.std.specs.Prelude.{◌≡◌, [], ◌∷◌, Ok, map, IfOk};
ghost use Rattle.std.specs.List.{AllZip};
ghost use Rattle.answer_defs.specs.Defined.{AsDefined};
ghost use Rattle.feed_defs.specs.Rows.{occurrences_of, span_in, value, numbered_values, unknown_bytes_of};
ghost use Rattle.feed_defs.specs.Table as feed_table;
ghost use Rattle.feed_defs.specs.Table.{read};
ghost use Rattle.field_read.specs.Causes.{cause_of};

use crate::NoMemory;
use crate::message::{needed, note_fields, read_one};
use crate::nested::{embedded, numbered};
use field_read::{Fields, ReadFault, Slots};
use rayon::prelude::*;
use rt_types::{Bytes, Entity, FeedMessage, Items, Kind};
use std::alloc::Global;
use std::thread::Threads;

/// From how many entities on threads are worth what it costs to start them.
const MANY: usize = 2048;

/// How few entities a thread is given.
const LEAST_PIECE: usize = 256;

/// The payloads of the field with this number; or out of memory.
fn payloads_of<'a>(
    alloc: Global,
    number: u32,
    fields: &Fields<'a, '_>,
) -> Result<Vec<&'a [u8]>, NoMemory>
    ensures { IfOk result (λ payloads. map (λ bytes. bytes.now) payloads.items
        ≡ occurrences_of span_in number fields.now) }
{
    let mut payloads = Vec::with_capacity(alloc, fields.count(number))?;
    for bytes in fields.spans(number) {
        payloads.push(bytes)?;
    }
    Ok(payloads)
}

/// The entities of these payloads, read on as many threads as the machine has processors; or a
/// fault in one of them, which need not be the first.
fn read_each(
    rt: &(impl Threads + Sync),
    alloc: Global,
    payloads: &[&[u8]],
) -> Result<Vec<Entity>, ReadFault>
    ensures { IfOk result (λ entities. AllZip
        (λ bytes one. value feed_table.entity (bytes.now ∷ []) ≡ Ok one)
        payloads.now entities.items) }
{
    let entities = payloads
        .par_iter()
        .with_min_len(LEAST_PIECE)
        .map(
            |bytes: &&[u8]| -> Result<Entity, ReadFault>
                ensures { IfOk result (λ one. value feed_table.entity (bytes.now.now ∷ []) ≡ Ok one) }
            { read_one(alloc, bytes) },
        )
        .collect::<Result<Vec<Entity>, ReadFault>>(rt, alloc)?;
    entities
}

/// The entities of a message, or the first fault in them. Many are read on several threads; where
/// one of them has a fault, they are read once more in their order, since the first is told.
fn entities_of(
    rt: &(impl Threads + Sync),
    alloc: Global,
    fields: &Fields<'_, '_>,
) -> Result<Items<Entity>, ReadFault>
    ensures { AsDefined (λ x. x) cause_of
        (numbered_values feed_table.entity 0 (occurrences_of span_in 2 fields.now)) result }
{
    if fields.count(2) >= MANY {
        let payloads = payloads_of(alloc, 2, fields)?;
        if let Ok(entities) = read_each(rt, alloc, payloads.as_slice()) {
            return Ok(Items::new(entities));
        }
    }
    numbered(alloc, 2, fields)
}

/// The message of these fields and of the bytes of those that it doesn't know; or the first fault
/// in them.
fn message_of(
    rt: &(impl Threads + Sync),
    alloc: Global,
    fields: &Fields<'_, '_>,
    unknown: Bytes,
) -> Result<FeedMessage, ReadFault>
    requires { unknown ≡ unknown_bytes_of feed_table.feed.is_known fields.now }
    ensures { AsDefined (λ x. x) cause_of (feed_table.feed.of_fields fields.now) result }
{
    let mut header = None;
    embedded(alloc, 1, fields, &mut header)?;
    let entity = entities_of(rt, alloc, fields)?;
    let header = needed(Kind::FeedMessage, 1, header)?;
    Ok(FeedMessage {
        header,
        entity,
        unknown,
    })
}

/// What [`read_message`](crate::read_message) gives. From some two thousand entities on, these are
/// read on as many threads as the machine has processors.
#[tactic(auto, unfolding(feed_defs::specs::Table::read))]
pub fn read_message_on(
    rt: &(impl Threads + Sync),
    alloc: Global,
    bytes: &[u8],
) -> Result<FeedMessage, ReadFault>
    ensures { AsDefined (λ x. x) cause_of (read bytes.now) result }
{
    let mut slots = Slots::new();
    let unknown = note_fields::<FeedMessage>(alloc, bytes, &mut slots)?;
    message_of(rt, alloc, &Fields::new(bytes, &slots), unknown)
}
