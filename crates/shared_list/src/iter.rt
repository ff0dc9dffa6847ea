//! The items of a list in order.

ghost use Rattle.std.specs.Prelude.{◌≡◌};
ghost use Rattle.shared_list.specs.Order.{items_from, Rises};
ghost use Rattle.shared_list.specs.Parts.{items_in, node_items, AreSound, IsFilled};
ghost use Rattle.std.specs.Iterator.{YieldsFirstRef, item_count};

use crate::keyed::{KeyFor, Keyed};
use crate::leaf::{Leaf, start_at};
use crate::node::Node;
use crate::shared::part_and_rest;
use std::marker::Model;
use std::sync::Arc;

/// The items of a list, in the order of their keys. A contract sees the list of those that are
/// left.
#[derive(Drop)]
pub struct Iter<'a, T: Keyed> {
    items: &'a [T],
    leaves: &'a [Arc<Leaf<T>>],
    nodes: &'a [Arc<Node<Leaf<T>>>],
}

impl<'a, T: Keyed> Model for Iter<'a, T> {
    ghost use Rattle.std.specs.Prelude.{List};

    ghost Value = { List T };

    ghost use Rattle.std.specs.Prelude.{◌++◌};
    ghost use Rattle.shared_list.specs.Parts.{items_in, leaf_items, node_items};
    ghost use Rattle.shared_list.specs.Parts.{AreSound, IsDated, IsFilled};

    ghost view = { λ it. it.items.now
        ++ (items_in leaf_items it.leaves.now ++ items_in node_items it.nodes.now) };

    ghost invariant = { λ it. (AreSound leaf_items (IsDated T.stamp_of) it.leaves.now)
        × (AreSound node_items (IsFilled T.stamp_of) it.nodes.now) };
}

impl<'a, T: Keyed> Iter<'a, T> {
    /// The items of the nodes, none of which is empty, nor a leaf of them.
    pub(crate) fn over(nodes: &'a [Arc<Node<Leaf<T>>>]) -> Iter<'a, T>
        requires { AreSound node_items (IsFilled T.stamp_of) nodes.now }
        ensures { result ≡ items_in node_items nodes.entry.now }
    {
        Iter {
            items: &[],
            leaves: &[],
            nodes,
        }
    }

    /// Those items of the nodes whose keys are not below the given one.
    pub(crate) fn starting<K: KeyFor<T>>(nodes: &'a [Arc<Node<Leaf<T>>>], key: K) -> Iter<'a, T>
        requires sound { AreSound node_items (IsFilled T.stamp_of) nodes.now }
        requires rising { Rises T.key_cmp T.key_of (items_in node_items nodes.now) }
        ensures { result ≡ items_from T.key_cmp T.key_of (K.sought key)
            (items_in node_items nodes.entry.now) }
    {
        if nodes.is_empty() {
            return Iter::over(nodes);
        }
        let (node, nodes) = part_and_rest(nodes, key);
        let (leaf, leaves) = part_and_rest(node.parts.as_slice(), key);
        let items = leaf.items.as_slice();
        Iter {
            items: &items[start_at(items, key)..],
            leaves,
            nodes,
        }
    }
}

impl<'a, T: Keyed> Iterator for Iter<'a, T> {
    type Item = &'a T;

    ghost next_gives = { YieldsFirstRef (λ left. left) };

    ghost remaining = { item_count (λ left. left) };

    fn next(&mut self) -> Option<&'a T> {
        if let Some((first, rest)) = self.items.split_first() {
            self.items = rest;
            return Some(first);
        }
        if let Some((leaf, leaves)) = self.leaves.split_first() {
            let (first, rest) = leaf.items.split_first()?;
            self.items = rest;
            self.leaves = leaves;
            return Some(first);
        }
        let (node, nodes) = self.nodes.split_first()?;
        let (leaf, leaves) = node.parts.split_first()?;
        let (first, rest) = leaf.items.split_first()?;
        self.items = rest;
        self.leaves = leaves;
        self.nodes = nodes;
        Some(first)
    }
}
