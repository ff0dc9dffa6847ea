//! The alerts of a feed.

ghost use Rattle.std.specs.Prelude.{◌≡◌, List, [], map, T, if◌then◌else◌, false, IfOk};
ghost use Rattle.std.specs.Cmp.Lexicographic.{slice_cmp};
ghost use Rattle.std.specs.FinMap.{find, is_sorted};
ghost use Rattle.std.specs.Option.{option_map_or};
ghost use Rattle.std.specs.Ordering.{nat_cmp};
ghost use Rattle.std.specs.Iterator.{YieldsFirstRef, item_count};
ghost use Rattle.feed_defs.specs.History.{Change, changes_with, is_full};
ghost use Rattle.alert_select.specs.FeedAlerts.{has_alert, alerts_of, alerts_and};

use crate::NoMemory;
use entity_table::{SharedStored, Stored, Table, TableIter};
use rt_types::{Copied, FeedMessage, Text};
use std::alloc::Global;
use std::marker::Model;

/// What a feed holds that has an alert, kept beside the table of all that it holds. A contract sees
/// the list of pairs of id and stored entity, in byte order of the ids.
#[derive(Drop)]
pub struct AlertIndex {
    alerts: Table,
}

impl Model for AlertIndex {
    ghost use Rattle.std.specs.Prelude.{List};
    ghost use Rattle.feed_defs.specs.History.{Change};

    ghost Value = { List Change };

    ghost view = { λ index. index.alerts };
}

impl AlertIndex {
    /// The index of a feed that holds nothing. It takes no memory.
    pub fn empty(alloc: Global) -> AlertIndex
        ensures { result ≡ [] }
    {
        AlertIndex {
            alerts: Table::empty(alloc),
        }
    }

    /// The index of what a table holds; or want of memory. It goes over the table once.
    pub fn build(alloc: Global, table: &Table) -> Result<AlertIndex, NoMemory>
        ensures { IfOk result (λ index. index ≡ alerts_of table.now) }
    {
        let mut alerts = Table::empty(alloc);
        for stored in table.iter() {
            alerts = listed(alloc, alerts, stored)?;
        }
        Ok(AlertIndex { alerts })
    }

    /// What a message goes on from: nothing, where it is a whole data set, and else an index that
    /// shares with this one all that it holds; or want of memory.
    pub fn start(&self, alloc: Global, message: &FeedMessage) -> Result<AlertIndex, NoMemory>
        ensures { IfOk result (λ start. start ≡ (if is_full message.now then [] else self.now)) }
    {
        Ok(AlertIndex {
            alerts: self.alerts.start(alloc, message)?,
        })
    }

    /// The index of what the feed holds after one entity of a message, where this is the index of
    /// what it held before and `before` is what it held under the entity's id; or out of memory. An
    /// entity with an alert is held in a further share. Where neither it nor what it replaces has
    /// one, nothing is searched.
    pub fn with(
        self,
        stored: &SharedStored,
        before: Option<SharedStored>,
    ) -> Result<AlertIndex, NoMemory>
        ensures { (entities : List Change) → T (is_sorted (slice_cmp nat_cmp) entities)
            → self ≡ alerts_of entities
            → before ≡ find (slice_cmp nat_cmp) stored.now.entity.id entities
            → IfOk result (λ next. next
            ≡ alerts_of (changes_with entities (stored.now.entity.id, stored.now))) }
    {
        if has_alert(stored) {
            let changed = self.alerts.with(stored.copy()?)?;
            Ok(AlertIndex {
                alerts: changed.table,
            })
        } else if had_alert(&before) {
            let changed = self.alerts.without(stored.get().entity.id.as_str())?;
            Ok(AlertIndex {
                alerts: changed.table,
            })
        } else {
            Ok(self)
        }
    }

    /// The ids of the entities that have an alert, in byte order.
    pub fn ids(&self) -> AlertIds<'_>
        ensures { result ≡ map (λ change. change.0) self.entry.now }
    {
        AlertIds { left: self.iter() }
    }

    /// Those that have an alert, in byte order of their ids, which are their entities' own.
    pub fn iter(&self) -> TableIter<'_>
        ensures items { result ≡ map (λ change. change.1) self.entry.now }
        ensures keyed { map (λ stored. (stored.entity.id, stored)) (map
            (λ change. change.1) self.entry.now)
            ≡ self.entry.now }
    {
        self.alerts.iter()
    }
}

/// The ids of a feed's alerts, in byte order. A contract sees the list of those that are left.
#[derive(Drop)]
pub struct AlertIds<'a> {
    left: TableIter<'a>,
}

impl<'a> Model for AlertIds<'a> {
    ghost use Rattle.std.specs.Prelude.{List, ℕ, map};

    ghost Value = { List (List ℕ) };

    ghost view = { λ ids. map (λ stored. stored.entity.id) ids.left };
}

impl<'a> Iterator for AlertIds<'a> {
    type Item = &'a Text;

    ghost next_gives = { YieldsFirstRef (λ ids. ids) };

    ghost remaining = { item_count (λ ids. ids) };

    fn next(&mut self) -> Option<&'a Text> {
        let stored = self.left.next()?;
        Some(&stored.entity.id)
    }
}

/// The alerts and what a table holds, where it has one.
fn listed(alloc: Global, alerts: Table, stored: &Stored) -> Result<Table, NoMemory>
    ensures { IfOk result (λ next. next ≡ alerts_and alerts stored.now) }
{
    if stored.entity.alert.is_some() {
        let stored = Stored {
            entity: stored.entity.copy()?,
            stamp: stored.stamp,
        };
        Ok(alerts.put(SharedStored::new(alloc, stored)?)?.table)
    } else {
        Ok(alerts)
    }
}

/// Whether the entity has an alert.
fn has_alert(stored: &SharedStored) -> bool
    ensures { result ≡ has_alert stored.now }
{
    stored.get().entity.alert.is_some()
}

/// Whether there was an entity, with an alert.
fn had_alert(before: &Option<SharedStored>) -> bool
    ensures { result ≡ option_map_or has_alert before.now false }
{
    match before {
        Some(stored) => has_alert(stored),
        None => false,
    }
}
