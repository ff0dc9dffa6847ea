//! One message more.

ghost use Rattle.std.specs.Prelude.{◌≡◌, ◌∷◌, ◌++◌, [], List, if◌then◌else◌, unwrap_or, false, IfOk};
ghost use Rattle.std.specs.Cmp.Lexicographic.{slice_cmp};
ghost use Rattle.std.specs.FinMap.{put, find};
ghost use Rattle.std.specs.Ordering.{nat_cmp};
ghost use Rattle.feed_defs.specs.History.{
  entities_after,
  changes_with,
  changes_without,
  entities_of,
  is_full,
};
ghost use Rattle.rt_types.specs.declared.message.FeedMessage.{FeedMessage};

use crate::NoMemory;
use crate::stored::SharedStored;
use crate::table::Table;
use feed_defs::Stored;
use rt_types::{Copied, Entity, FeedMessage, Incrementality};
use shared_list::Changed;
use std::alloc::Global;

/// The table after the message (GTFS Realtime 2.0, FeedHeader, `incrementality`). A whole data set
/// starts from nothing, a differential message from the given table. Then, entity by entity, one
/// that says that it is deleted takes its id away, and any other takes the place of what its id
/// had, whole, with the message's stamp.
pub fn apply(alloc: Global, table: &Table, message: &FeedMessage) -> Result<Table, NoMemory>
    ensures applied { IfOk result (λ next. next ≡ entities_after message.now table.now) }
    ensures stands { (ms : List FeedMessage) → table.now
        ≡ entities_of ms → IfOk result (λ next. next ≡ entities_of (ms ++ message.now ∷ [])) }
{
    let mut next = table.start(alloc, message)?;
    let stamp = message.header.timestamp.unwrap_or(0);
    for entity in message.entity.as_slice() {
        let stored = Stored {
            entity: entity.copy()?,
            stamp,
        };
        next = next.with(SharedStored::new(alloc, stored)?)?.table;
    }
    Ok(next)
}

/// A table after a change of what one id has.
#[derive(Drop)]
pub struct ChangedTable {
    /// The table as it is now.
    pub table: Table,
    /// What the id had before, if it had anything.
    pub before: Option<SharedStored>,
}

impl Table {
    /// What the message goes on from: nothing, where it is a whole data set, and else a share of
    /// this table; or want of memory.
    pub fn start(&self, alloc: Global, message: &FeedMessage) -> Result<Table, NoMemory>
        ensures { IfOk result (λ start. start ≡ (if is_full message.now then [] else self.now)) }
    {
        match message.header.incrementality {
            Some(Incrementality::Differential) => self.share(),
            Some(Incrementality::FullDataset) | None => Ok(Table::empty(alloc)),
        }
    }

    /// The table, changed by one entity of a message. One that says that it is deleted takes its id
    /// away; any other takes the place of what its id had. Or want of memory.
    pub fn with(self, stored: SharedStored) -> Result<ChangedTable, NoMemory>
        ensures table { IfOk result (λ changed. changed.table
            ≡ changes_with self (stored.entity.id, stored)) }
        ensures before { IfOk result (λ changed. changed.before
            ≡ find (slice_cmp nat_cmp) stored.entity.id self) }
    {
        let entity = &stored.get().entity;
        if is_deleted(entity) {
            self.without(entity.id.as_str())
        } else {
            self.put(stored)
        }
    }

    /// The table with the entity in the place of what its id had, whatever the entity says of
    /// itself; or want of memory.
    pub fn put(self, stored: SharedStored) -> Result<ChangedTable, NoMemory>
        ensures table { IfOk result (λ changed. changed.table
            ≡ put (slice_cmp nat_cmp) stored.entity.id stored self) }
        ensures before { IfOk result (λ changed. changed.before
            ≡ find (slice_cmp nat_cmp) stored.entity.id self) }
    {
        let Changed { list, before } = self.list.with(stored)?;
        Ok(ChangedTable {
            table: Table { list },
            before,
        })
    }

    /// The table with nothing under the id, or out of memory.
    pub fn without(self, id: &str) -> Result<ChangedTable, NoMemory>
        ensures table { IfOk result (λ changed. changed.table ≡ changes_without id.now self) }
        ensures before { IfOk result (λ changed. changed.before
            ≡ find (slice_cmp nat_cmp) id.now self) }
    {
        let Changed { list, before } = self.list.without(id)?;
        Ok(ChangedTable {
            table: Table { list },
            before,
        })
    }
}

/// Whether the entity says that it is deleted.
pub(crate) fn is_deleted(entity: &Entity) -> bool
    ensures { result ≡ unwrap_or entity.now.is_deleted false }
{
    entity.is_deleted.unwrap_or(false)
}
