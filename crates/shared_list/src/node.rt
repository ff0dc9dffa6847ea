//! The upper parts of a list: parts that several versions may share.

ghost use Rattle.std.specs.Prelude.{◌≡◌};
ghost use Rattle.shared_list.specs.Parts.{items_in, AreSound, IsNode};
ghost use Rattle.shared_list.specs.Stamps.{NoneAbove};

use crate::NoMemory;
use crate::keyed::{KeyFor, Keyed};
use crate::part::{Part, PutOutcome, TakeOutcome};
use crate::shared::{item_in, put_shared, share, take_out_shared};
use crate::split::{Arrival, NODE_MOST, split_off};
use std::alloc::Global;
use std::cmp::Ordering;
use std::sync::Arc;

/// Parts one after another, in the order of their keys.
#[derive(Drop)]
pub(crate) struct Node<P> {
    pub(crate) parts: Vec<Arc<P>>,
    // No item has a stamp above it.
    newest: u64,
}

impl<P: Part> Node<P> {
    /// A node of these parts.
    pub(crate) fn of(parts: Vec<Arc<P>>) -> Node<P>
        requires { AreSound P.items P.sound parts.items }
        ensures parts { result.parts.items ≡ parts.items }
        ensures sound { IsNode P.items P.sound P.Item.stamp_of result }
    {
        let newest = newest_in(parts.as_slice());
        Node { parts, newest }
    }
}

/// The greatest stamp of the parts; 0 where there are none.
fn newest_in<P: Part>(parts: &[Arc<P>]) -> u64
    requires { AreSound P.items P.sound parts.now }
    ensures { NoneAbove P.Item.stamp_of result (items_in P.items parts.now) }
{
    let mut newest = 0;
    for part in parts {
        newest = newest.max(part.newest());
    }
    newest
}

impl<P: Part> Part for Node<P> {
    type Item = P::Item;

    ghost use Rattle.shared_list.specs.Order.{at_first};
    ghost use Rattle.shared_list.specs.Parts.{items_in, first_leads, IsNode};

    ghost items = { λ node. items_in P.items node.parts.items };

    ghost sound = { IsNode P.items P.sound P.Item.stamp_of };

    ghost lead_cmp = { λ node k. at_first (λ part. P.lead_cmp part.value k) node.parts.items };

    fn of_one(alloc: Global, item: P::Item) -> Result<Self, NoMemory> {
        let mut parts = Vec::new(alloc);
        put_shared(&mut parts, item)?;
        Ok(Node::of(parts))
    }

    fn lead_order<K: KeyFor<P::Item>>(&self, key: K) -> Ordering {
        match self.parts.first() {
            Some(part) => part.lead_order(key),
            None => Ordering::Less,
        }
    }

    fn item_of<K: KeyFor<P::Item>>(&self, key: K) -> Option<&P::Item> {
        item_in(self.parts.as_slice(), key)
    }

    fn newest(&self) -> u64 {
        self.newest
    }

    fn copied(&self, more: usize) -> Result<Self, NoMemory> {
        Ok(Node {
            parts: share(&self.parts, more)?,
            newest: self.newest,
        })
    }

    fn put_item(&mut self, item: P::Item) -> Result<PutOutcome<Self, P::Item>, NoMemory> {
        let newest = self.newest.max(item.stamp());
        let Arrival { replaced, at_end } = put_shared(&mut self.parts, item)?;
        match split_off(&mut self.parts, NODE_MOST, at_end)? {
            Some(parts) => {
                self.newest = newest_in(self.parts.as_slice());
                Ok(PutOutcome {
                    replaced,
                    back: Some(Node::of(parts)),
                })
            }
            None => {
                self.newest = newest;
                Ok(PutOutcome {
                    replaced,
                    back: None,
                })
            }
        }
    }

    fn take_out<K: KeyFor<P::Item>>(&mut self, key: K) -> Result<TakeOutcome<P::Item>, NoMemory> {
        let taken = take_out_shared(&mut self.parts, key)?;
        Ok(TakeOutcome {
            taken,
            none_left: self.parts.is_empty(),
        })
    }

    ghost leads = { λ k node sound.
        first_leads P.items P.sound (λ part. P.lead_cmp part k)
        (λ item. P.Item.key_cmp (P.Item.key_of item) k) (P.leads k) node.parts.items sound.0 };
}
