//! The table of a feed that held nothing.

ghost use Rattle.std.specs.Prelude.{◌≡◌, [], map, fold, IfOk};
ghost use Rattle.std.specs.List.{list_any};
ghost use Rattle.feed_defs.specs.History.{entities_after};
ghost use Rattle.entity_table.specs.AllAtOnce as rule;
ghost use Rattle.entity_table.specs.AllAtOnce.{and_stored, with_stamp};

use crate::NoMemory;
use crate::changes::is_deleted;
use crate::stored::SharedStored;
use crate::table::Table;
use feed_defs::Stored;
use keyed_lists::listed_by_key;
use rt_types::{Entity, FeedMessage};
use std::alloc::Global;

/// Entities with the stamp of their message; or out of memory.
fn stored_of(
    alloc: Global,
    entities: Vec<Entity>,
    stamp: u64,
) -> Result<Vec<SharedStored>, NoMemory>
    ensures { IfOk result (λ all. all.items ≡ map (with_stamp stamp) entities.items) }
{
    let mut all = Vec::with_capacity(alloc, entities.len())?;
    for entity in entities {
        all.push(SharedStored::new(alloc, Stored { entity, stamp })?)?;
    }
    Ok(all)
}

/// Whether the entity says that it is deleted.
fn is_gone(stored: &SharedStored) -> bool
    ensures { result ≡ rule.is_gone stored.now }
{
    is_deleted(&stored.get().entity)
}

/// Whether one of the entities says that it is deleted.
fn has_deleted(all: &[SharedStored]) -> bool
    ensures { result ≡ list_any rule.is_gone all.now }
{
    all.iter().any(|stored| is_gone(stored))
}

/// The table that the entities make of nothing, one after another; or out of memory.
fn put_each(alloc: Global, all: Vec<SharedStored>) -> Result<Table, NoMemory>
    ensures { IfOk result (λ table. table ≡ fold and_stored [] all.items) }
{
    let mut table = Table::empty(alloc);
    for stored in all {
        table = table.with(stored)?.table;
    }
    Ok(table)
}

/// The same. Where none is deleted, they are put into their places all at once.
fn table_of(alloc: Global, all: Vec<SharedStored>) -> Result<Table, NoMemory>
    ensures { IfOk result (λ table. table ≡ fold and_stored [] all.items) }
{
    if has_deleted(all.as_slice()) {
        put_each(alloc, all)
    } else {
        Ok(Table {
            list: listed_by_key(all)?,
        })
    }
}

/// The table after a message, where nothing was held before or the message is a whole data set; or
/// out of memory. It is what `apply` makes of an empty table, but takes the entities out of the
/// message. Ids that rise, as they mostly do, are compared once with their neighbours, and the
/// table is made of them in one pass.
pub fn first_table(alloc: Global, message: FeedMessage) -> Result<Table, NoMemory>
    ensures { IfOk result (λ table. table ≡ entities_after message []) }
{
    let stamp = message.header.timestamp.unwrap_or(0);
    let all = stored_of(alloc, message.entity.into_vec(), stamp)?;
    table_of(alloc, all)
}
