//! The table of a feed.

ghost use Rattle.std.specs.Prelude.{◌≡◌, List, [], length, map, T as IsSo, IfOk};
ghost use Rattle.std.specs.Cmp.Lexicographic.{slice_cmp};
ghost use Rattle.std.specs.FinMap.{find, is_sorted};
ghost use Rattle.std.specs.Iterator.{YieldsFirstRef, item_count};
ghost use Rattle.std.specs.Option.{option_copied};
ghost use Rattle.std.specs.Ordering.{nat_cmp};
ghost use Rattle.rt_types.specs.declared.message.FeedMessage.{FeedMessage};
ghost use Rattle.feed_defs.specs.History.{entities_of, entity_at};
ghost use Rattle.shared_list.specs.Stamps.{newer};

use crate::NoMemory;
use crate::stored::SharedStored;
use feed_defs::Stored;
use shared_list::{Iter, Newer, SharedList};
use std::alloc::Global;
use std::marker::Model;

/// What a feed holds: under each id one entity, and the time of the message that brought it. A
/// contract sees the list of pairs of id and stored entity, in byte order of the ids.
#[derive(Drop)]
pub struct Table {
    pub(crate) list: SharedList<SharedStored>,
}

impl Model for Table {
    ghost use Rattle.std.specs.Prelude.{List};
    ghost use Rattle.feed_defs.specs.History.{Change};

    ghost Value = { List Change };

    ghost view = { λ table. table.list };
}

impl Table {
    /// The table of a feed that has sent nothing. It takes no memory.
    pub fn empty(alloc: Global) -> Table
        ensures { result ≡ [] }
    {
        Table {
            list: SharedList::empty(alloc),
        }
    }

    /// The same table, which shares with this one all that it holds; or want of memory.
    pub fn share(&self) -> Result<Table, NoMemory>
        ensures { IfOk result (λ same. same ≡ self.now) }
    {
        Ok(Table {
            list: self.list.share()?,
        })
    }

    /// What is held under the id; `None` exactly where nothing is.
    pub fn get(&self, id: &str) -> Option<&Stored>
        ensures found { option_copied result ≡ find (slice_cmp nat_cmp) id.now self.entry.now }
        ensures said { (ms : List FeedMessage) → self.entry.now ≡ entities_of ms
            → option_copied result ≡ entity_at ms id.now }
    {
        stored_in(&self.list, id)
    }

    /// All that the feed holds, one entity for each id, in byte order of the ids, which strictly
    /// rise.
    pub fn iter(&self) -> TableIter<'_>
        ensures items { result ≡ map (λ change. change.1) self.entry.now }
        ensures rising { IsSo (is_sorted (slice_cmp nat_cmp) self.entry.now) }
        ensures keyed { map (λ stored. (stored.entity.id, stored)) (map
            (λ change. change.1) self.entry.now)
            ≡ self.entry.now }
    {
        TableIter {
            inner: self.list.iter(),
        }
    }

    /// What came with a message whose stamp is above the given one, in byte order of the ids. What
    /// the table shares with an earlier one is passed over by parts, so it hardly costs more than
    /// what it gives.
    pub fn newer(&self, than: u64) -> NewerEntities<'_>
        ensures { result ≡ newer (λ stored. stored.stamp) than
            (map (λ change. change.1) self.entry.now) }
    {
        NewerEntities {
            inner: self.list.newer(than),
        }
    }

    /// Does nothing; its contract tells what is true of every table.
    pub fn sound(&self)
        ensures { IsSo (is_sorted (slice_cmp nat_cmp) self.entry.now) }
    {
        let _all = self.list.iter();
    }

    /// How many ids there are.
    pub fn len(&self) -> usize
        ensures { result ≡ length self.now }
    {
        self.list.len()
    }
}

/// What the list has under the id.
fn stored_in<'a>(list: &'a SharedList<SharedStored>, id: &str) -> Option<&'a Stored>
    ensures { option_copied result ≡ find (slice_cmp nat_cmp) id.now list.entry.now }
{
    list.get(id).map(|shared| shared.get())
}

/// What a table holds, in byte order of the ids. A contract sees the list of what is left.
#[derive(Drop)]
pub struct TableIter<'a> {
    inner: Iter<'a, SharedStored>,
}

impl<'a> Model for TableIter<'a> {
    ghost use Rattle.std.specs.Prelude.{List};
    ghost use Rattle.feed_defs.specs.declared.history.Stored.{Stored};

    ghost Value = { List Stored };

    ghost view = { λ left. left.inner };
}

impl<'a> Iterator for TableIter<'a> {
    type Item = &'a Stored;

    ghost next_gives = { YieldsFirstRef (λ left. left) };

    ghost remaining = { item_count (λ left. left) };

    fn next(&mut self) -> Option<&'a Stored> {
        let shared = self.inner.next()?;
        Some(shared.get())
    }
}

/// What a table holds that is newer than a stamp, in byte order of the ids. A contract sees the
/// list of what is left.
#[derive(Drop)]
pub struct NewerEntities<'a> {
    inner: Newer<'a, SharedStored>,
}

impl<'a> Model for NewerEntities<'a> {
    ghost use Rattle.std.specs.Prelude.{List};
    ghost use Rattle.feed_defs.specs.declared.history.Stored.{Stored};

    ghost Value = { List Stored };

    ghost view = { λ left. left.inner };
}

impl<'a> Iterator for NewerEntities<'a> {
    type Item = &'a Stored;

    ghost next_gives = { YieldsFirstRef (λ left. left) };

    ghost remaining = { item_count (λ left. left) };

    fn next(&mut self) -> Option<&'a Stored> {
        let shared = self.inner.next()?;
        Some(shared.get())
    }
}
