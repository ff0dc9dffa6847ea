//! The lowest parts of a list: items in the order of their keys.

ghost use Rattle.std.specs.Prelude.{◌≡◌, ◌<◌, ◌≤◌, length, drop, IfOk, OnOk, MatchResult};
ghost use Rattle.std.specs.FinMap.{put};
ghost use Rattle.shared_list.specs.Order.{
  entries,
  item_with,
  items_from,
  without,
  IsAt,
  IsGap,
  Rises,
};
ghost use Rattle.shared_list.specs.Parts.{leaf_items, IsDated};
ghost use Rattle.shared_list.specs.Stamps.{NoneAbove};

use crate::NoMemory;
use crate::keyed::{KeyFor, Keyed};
use crate::part::{Part, PutOutcome, TakeOutcome};
use crate::split::{Arrival, LEAF_MOST, split_off};
use std::alloc::Global;
use std::cmp::Ordering;
use std::mem;

/// Items one after another, in the order of their keys.
#[derive(Drop)]
pub(crate) struct Leaf<T> {
    pub(crate) items: Vec<T>,
    // No item has a stamp above it.
    newest: u64,
}

impl<T: Keyed> Leaf<T> {
    /// A leaf of these items.
    pub(crate) fn of(items: Vec<T>) -> Leaf<T>
        ensures items { leaf_items result ≡ items.items }
        ensures dated { IsDated T.stamp_of result }
    {
        let newest = newest_of(items.as_slice());
        Leaf { items, newest }
    }
}

/// The greatest stamp of the items; 0 where there are none.
fn newest_of<T: Keyed>(items: &[T]) -> u64
    ensures { NoneAbove T.stamp_of result items.now }
{
    let mut newest = 0;
    for item in items {
        newest = newest.max(item.stamp());
    }
    newest
}

/// Where the item with that key stands, or where it would.
fn place<T: Keyed, K: KeyFor<T>>(items: &[T], key: K) -> Result<usize, usize>
    requires { Rises T.key_cmp T.key_of items.now }
    ensures { MatchResult result (IsAt T.key_cmp T.key_of (K.sought key) items.now)
        (IsGap T.key_cmp T.key_of (K.sought key) items.now) }
{
    items.binary_search_by(|item| key.order_of(item))
}

/// Where the first item stands whose key is not below the given one.
pub(crate) fn start_at<T: Keyed, K: KeyFor<T>>(items: &[T], key: K) -> usize
    requires { Rises T.key_cmp T.key_of items.now }
    ensures within { result ≤ length items.now }
    ensures start { drop result items.now
        ≡ items_from T.key_cmp T.key_of (K.sought key) items.now }
{
    match place(items, key) {
        Ok(at) => at,
        Err(at) => at,
    }
}

/// Puts the item in its place, which is that of the item with its key, if there is one.
fn put_among<T: Keyed>(items: &mut Vec<T>, item: T) -> Result<Arrival<T>, NoMemory>
    requires { Rises T.key_cmp T.key_of items.old.items }
    ensures put { OnOk result (entries T.key_of items.new.items
        ≡ put T.key_cmp (T.key_of item) item (entries T.key_of items.old.items)) }
    ensures replaced { IfOk result (λ arrival. arrival.replaced
        ≡ item_with T.key_cmp T.key_of (T.key_of item) items.old.items) }
    ensures filled { OnOk result (0 < length items.new.items) }
{
    match place(items.as_slice(), &item) {
        Ok(at) => {
            let old = mem::replace(&mut items[at], item);
            Ok(Arrival {
                replaced: Some(old),
                at_end: false,
            })
        }
        Err(at) => {
            let at_end = at == items.len();
            items.insert(at, item)?;
            Ok(Arrival {
                replaced: None,
                at_end,
            })
        }
    }
}

/// Takes the item with that key out, if there is one.
fn take_among<T: Keyed, K: KeyFor<T>>(items: &mut Vec<T>, key: K) -> Option<T>
    requires { Rises T.key_cmp T.key_of items.old.items }
    ensures without { entries T.key_of items.new.items
        ≡ without T.key_cmp (K.sought key) (entries T.key_of items.old.items) }
    ensures taken { result ≡ item_with T.key_cmp T.key_of (K.sought key) items.old.items }
{
    match place(items.as_slice(), key) {
        Ok(at) => Some(items.remove(at)),
        Err(_) => None,
    }
}

impl<T: Keyed> Part for Leaf<T> {
    type Item = T;

    ghost use Rattle.std.specs.Prelude.{refl};
    ghost use Rattle.shared_list.specs.Order.{at_first};
    ghost use Rattle.shared_list.specs.Parts.{leaf_items, IsDated};

    ghost items = { leaf_items };

    ghost sound = { IsDated T.stamp_of };

    ghost lead_cmp = { λ leaf k. at_first (λ item. T.key_cmp (T.key_of item) k)
        (leaf_items leaf) };

    fn of_one(alloc: Global, item: T) -> Result<Self, NoMemory> {
        let mut items = Vec::new(alloc);
        items.push(item)?;
        Ok(Leaf::of(items))
    }

    fn lead_order<K: KeyFor<T>>(&self, key: K) -> Ordering {
        match self.items.first() {
            Some(item) => key.order_of(item),
            None => Ordering::Less,
        }
    }

    fn item_of<K: KeyFor<T>>(&self, key: K) -> Option<&T> {
        match place(self.items.as_slice(), key) {
            Ok(at) => Some(&self.items[at]),
            Err(_) => None,
        }
    }

    fn newest(&self) -> u64 {
        self.newest
    }

    fn copied(&self, more: usize) -> Result<Self, NoMemory> {
        Ok(Leaf {
            items: T::copies(&self.items, more)?,
            newest: self.newest,
        })
    }

    fn put_item(&mut self, item: T) -> Result<PutOutcome<Self, T>, NoMemory> {
        let newest = self.newest.max(item.stamp());
        let Arrival { replaced, at_end } = put_among(&mut self.items, item)?;
        match split_off(&mut self.items, LEAF_MOST, at_end)? {
            Some(back) => {
                self.newest = newest_of(self.items.as_slice());
                Ok(PutOutcome {
                    replaced,
                    back: Some(Leaf::of(back)),
                })
            }
            None => {
                self.newest = newest;
                Ok(PutOutcome {
                    replaced,
                    back: None,
                })
            }
        }
    }

    fn take_out<K: KeyFor<T>>(&mut self, key: K) -> Result<TakeOutcome<T>, NoMemory> {
        let taken = take_among(&mut self.items, key);
        Ok(TakeOutcome {
            taken,
            none_left: self.items.is_empty(),
        })
    }

    ghost leads = { λ k leaf sound. refl };
}
