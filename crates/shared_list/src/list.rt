//! A list that shares its parts with other versions of it.

ghost use Rattle.std.specs.Prelude.{◌≡◌, ◌+◌, ◌-◌, [], length, map, T as IsSo, if◌then◌else◌, IfOk};
ghost use Rattle.std.specs.FinMap.{put, find, is_sorted};
ghost use Rattle.std.specs.Option.{option_copied};
ghost use Rattle.shared_list.specs.Changes.{after_change, after_changes};
ghost use Rattle.shared_list.specs.Order.{entries, entries_from, without, Rises};
ghost use Rattle.shared_list.specs.Stamps.{newer};

use crate::NoMemory;
use crate::change::Change;
use crate::iter::Iter;
use crate::keyed::{KeyFor, Keyed};
use crate::newer::Newer;
use crate::root::Root;
use crate::shared::item_in;
use crate::sorted::nodes_of;
use std::alloc::Global;
use std::marker::Model;

/// Items in the order of their keys, each key once. A contract sees them as a list of pairs of key
/// and item.
#[derive(Drop)]
pub struct SharedList<T: Keyed> {
    // Neither a node nor a leaf within one is empty.
    nodes: Root<T>,
    len: usize,
}

impl<T: Keyed> Model for SharedList<T> {
    ghost use Rattle.std.specs.Prelude.{List};

    ghost Value = { List (T.Key × T) };

    ghost use Rattle.shared_list.specs.Order.{entries};
    ghost use Rattle.shared_list.specs.Parts.{items_in, node_items, AreNodes};

    ghost view = { λ list. entries T.key_of (items_in node_items list.nodes) };

    ghost invariant = { λ list. AreNodes T.key_cmp T.key_of T.stamp_of list.nodes list.len };
}

/// A list after a change at one key.
#[derive(Drop)]
pub struct Changed<T: Keyed> {
    /// The list as it is now.
    pub list: SharedList<T>,
    /// The item that had the key before, if there was one.
    pub before: Option<T>,
}

impl<T: Keyed> SharedList<T> {
    /// A list of no items. It takes no memory until an item comes.
    pub fn empty(alloc: Global) -> Self
        ensures { result ≡ [] }
    {
        SharedList {
            nodes: Root::empty(alloc),
            len: 0,
        }
    }

    /// The list of items whose keys strictly rise, or out of memory. It is made in one pass without
    /// a comparison, and its leaves are full.
    pub fn of_sorted(alloc: Global, items: Vec<T>) -> Result<Self, NoMemory>
        requires { Rises T.key_cmp T.key_of items.items }
        ensures { IfOk result (λ list. list ≡ entries T.key_of items.items) }
    {
        let len = items.len();
        let nodes = Root::of(alloc, nodes_of(alloc, items)?)?;
        Ok(SharedList { nodes, len })
    }

    /// The same list, with all its nodes shared at once, or want of memory.
    pub fn share(&self) -> Result<Self, NoMemory>
        ensures { IfOk result (λ same. same ≡ self.now) }
    {
        Ok(SharedList {
            nodes: self.nodes.share()?,
            len: self.len,
        })
    }

    /// The list with the item in its place, which is that of the item with its key, if there is
    /// one; or out of memory.
    pub fn with(self, item: T) -> Result<Changed<T>, NoMemory>
        ensures list { IfOk result (λ changed. changed.list
            ≡ put T.key_cmp (T.key_of item) item self) }
        ensures before { IfOk result (λ changed. changed.before
            ≡ find T.key_cmp (T.key_of item) self) }
    {
        let SharedList { mut nodes, len } = self;
        let replaced = nodes.put(item)?;
        let len = len_with(len, replaced.is_some())?;
        Ok(Changed {
            list: SharedList { nodes, len },
            before: replaced,
        })
    }

    /// The list without the item of that key, or out of memory.
    pub fn without<K: KeyFor<T>>(self, key: K) -> Result<Changed<T>, NoMemory>
        ensures list { IfOk result (λ changed. changed.list
            ≡ without T.key_cmp (K.sought key) self) }
        ensures before { IfOk result (λ changed. changed.before
            ≡ find T.key_cmp (K.sought key) self) }
    {
        let SharedList { mut nodes, len } = self;
        let taken = nodes.take_out(key)?;
        let len = len_without(len, taken.is_some());
        Ok(Changed {
            list: SharedList { nodes, len },
            before: taken,
        })
    }

    /// The list after the changes, one after another; or out of memory.
    ///
    /// A node or a leaf that other versions share is copied by the first change that touches it,
    /// and is this version's own for those after it. So k changes copy at most k nodes of 16 shares
    /// and k leaves of 16 items, however many items the list has, and each change takes one search.
    /// Where they come in the order of keys, those that touch one leaf find it in the cache.
    pub fn with_all<K: KeyFor<T>>(self, changes: Vec<Change<T, K>>) -> Result<Self, NoMemory>
        ensures { IfOk result (λ list. list
            ≡ after_changes T.key_cmp T.key_of K.sought self changes.items) }
    {
        let mut list = self;
        for change in changes {
            list = list.after(change)?;
        }
        Ok(list)
    }

    /// The list after one change, or out of memory.
    fn after<K: KeyFor<T>>(self, change: Change<T, K>) -> Result<Self, NoMemory>
        ensures { IfOk result (λ list. list
            ≡ after_change T.key_cmp T.key_of K.sought self change) }
    {
        match change {
            Change::Put(item) => Ok(self.with(item)?.list),
            Change::Remove(key) => Ok(self.without(key)?.list),
        }
    }

    /// The item with that key; `None` exactly where there is none.
    pub fn get<K: KeyFor<T>>(&self, key: K) -> Option<&T>
        ensures { option_copied result ≡ find T.key_cmp (K.sought key) self.entry.now }
    {
        item_in(self.nodes.nodes(), key)
    }

    /// The items in the order of their keys, which strictly rise; each is under its own key.
    pub fn iter(&self) -> Iter<'_, T>
        ensures items { result ≡ map (λ entry. entry.1) self.entry.now }
        ensures rising { IsSo (is_sorted T.key_cmp self.entry.now) }
        ensures keyed { entries T.key_of (map (λ entry. entry.1) self.entry.now) ≡ self.entry.now }
    {
        Iter::over(self.nodes.nodes())
    }

    /// The items from a key on, as `iter` gives them: those whose keys are not below it. The first
    /// is searched for, so that it costs no walk over those before it.
    pub fn from<K: KeyFor<T>>(&self, key: K) -> Iter<'_, T>
        ensures items { result ≡ map (λ entry. entry.1)
            (entries_from T.key_cmp (K.sought key) self.entry.now) }
        ensures rising { IsSo (is_sorted T.key_cmp self.entry.now) }
        ensures keyed { entries T.key_of (map (λ entry. entry.1) self.entry.now) ≡ self.entry.now }
    {
        Iter::starting(self.nodes.nodes(), key)
    }

    /// The items whose stamps are above the given one, in the order of their keys. Nodes and leaves
    /// in which nothing is newer are passed over by one comparison each.
    pub fn newer(&self, than: u64) -> Newer<'_, T>
        ensures { result ≡ newer T.stamp_of than (map (λ entry. entry.1) self.entry.now) }
    {
        Newer::among(self.nodes.nodes(), than)
    }

    /// How many items there are.
    pub fn len(&self) -> usize
        ensures { result ≡ length self.now }
    {
        self.len
    }
}

/// How many items there are with one that may be new. More than can be counted are more than memory
/// holds.
fn len_with(len: usize, replaced: bool) -> Result<usize, NoMemory>
    ensures { IfOk result (λ count. count ≡ (if replaced then len else len + 1)) }
{
    if replaced {
        Ok(len)
    } else {
        len.checked_add(1).ok_or(NoMemory)
    }
}

/// How many items there are without one that may have been there.
fn len_without(len: usize, was_there: bool) -> usize
    ensures { result ≡ (if was_there then len - 1 else len) }
{
    if was_there {
        len.saturating_sub(1)
    } else {
        len
    }
}
