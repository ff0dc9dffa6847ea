//! The items of a list that are newer than a stamp.

ghost use Rattle.std.specs.Prelude.{◌≡◌, ◌∷◌, ◌++◌, [], IfSome, MatchOption};
ghost use Rattle.std.specs.Iterator.{YieldsFirstRef, item_count};
ghost use Rattle.shared_list.specs.Parts.{items_in, leaf_items, node_items};
ghost use Rattle.shared_list.specs.Parts.{AreSound, IsDated, IsFilled};
ghost use Rattle.shared_list.specs.Stamps.{newer};

use crate::keyed::Keyed;
use crate::leaf::Leaf;
use crate::node::Node;
use crate::part::Part;
use std::marker::Model;
use std::sync::Arc;

/// The items of a list whose stamps are above a given one, in the order of their keys. A contract
/// sees the list of those that are left.
#[derive(Drop)]
pub struct Newer<'a, T: Keyed> {
    than: u64,
    items: &'a [T],
    leaves: &'a [Arc<Leaf<T>>],
    nodes: &'a [Arc<Node<Leaf<T>>>],
}

impl<'a, T: Keyed> Model for Newer<'a, T> {
    ghost use Rattle.std.specs.Prelude.{List};

    ghost Value = { List T };

    ghost use Rattle.std.specs.Prelude.{◌++◌};
    ghost use Rattle.shared_list.specs.Parts.{items_in, leaf_items, node_items};
    ghost use Rattle.shared_list.specs.Parts.{AreSound, IsDated, IsFilled};
    ghost use Rattle.shared_list.specs.Stamps.{newer};

    ghost view = { λ it. newer T.stamp_of it.than (it.items.now
        ++ (items_in leaf_items it.leaves.now ++ items_in node_items it.nodes.now)) };

    ghost invariant = { λ it. (AreSound leaf_items (IsDated T.stamp_of) it.leaves.now)
        × (AreSound node_items (IsFilled T.stamp_of) it.nodes.now) };
}

impl<'a, T: Keyed> Newer<'a, T> {
    /// The items of the nodes with stamps above the given one.
    pub(crate) fn among(nodes: &'a [Arc<Node<Leaf<T>>>], than: u64) -> Newer<'a, T>
        requires { AreSound node_items (IsFilled T.stamp_of) nodes.now }
        ensures { result ≡ newer T.stamp_of than (items_in node_items nodes.entry.now) }
    {
        Newer {
            than,
            items: &[],
            leaves: &[],
            nodes,
        }
    }
}

/// An item with a stamp above the one asked for, and what stands behind it in its leaf and in its
/// node.
#[derive(Drop)]
struct Found<'a, T> {
    item: &'a T,
    items: &'a [T],
    leaves: &'a [Arc<Leaf<T>>],
}

/// The first of the items with a stamp above the given one, and the items behind it.
fn newer_item<'a, T: Keyed>(items: &'a [T], than: u64) -> Option<(&'a T, &'a [T])>
    ensures { MatchOption result (newer T.stamp_of than items.entry.now ≡ [])
        (λ found. newer T.stamp_of than items.entry.now
        ≡ found.0.now ∷ newer T.stamp_of than found.1.now) }
{
    let mut left = items;
    'items: while let Some((item, rest)) = left.split_first() {
        if item.stamp() > than {
            return Some((item, rest));
        }
        left = rest;
    }
    None
}

/// The same of the items of a leaf, which is passed over where it has none.
fn newer_in_leaf<'a, T: Keyed>(leaf: &'a Leaf<T>, than: u64) -> Option<(&'a T, &'a [T])>
    requires { IsDated T.stamp_of leaf.now }
    ensures { MatchOption result (newer T.stamp_of than (leaf_items leaf.entry.now) ≡ [])
        (λ found. newer T.stamp_of than (leaf_items leaf.entry.now)
        ≡ found.0.now ∷ newer T.stamp_of than found.1.now) }
{
    if leaf.newest() > than {
        newer_item(leaf.items.as_slice(), than)
    } else {
        None
    }
}

/// The same of the items of leaves.
fn newer_in_leaves<'a, T: Keyed>(leaves: &'a [Arc<Leaf<T>>], than: u64) -> Option<Found<'a, T>>
    requires { AreSound leaf_items (IsDated T.stamp_of) leaves.now }
    ensures step { MatchOption result
        (newer T.stamp_of than (items_in leaf_items leaves.entry.now) ≡ [])
        (λ found. newer T.stamp_of than (items_in leaf_items leaves.entry.now)
        ≡ found.item.now
        ∷ newer T.stamp_of than (found.items.now ++ items_in leaf_items found.leaves.now)) }
    ensures sound { IfSome result (λ found.
        AreSound leaf_items (IsDated T.stamp_of) found.leaves.now) }
{
    let mut left = leaves;
    'leaves: while let Some((leaf, leaves)) = left.split_first() {
        if let Some((item, items)) = newer_in_leaf(&**leaf, than) {
            return Some(Found {
                item,
                items,
                leaves,
            });
        }
        left = leaves;
    }
    None
}

/// The same of the leaves of a node, which is passed over where it has none.
fn newer_in_node<'a, T: Keyed>(node: &'a Node<Leaf<T>>, than: u64) -> Option<Found<'a, T>>
    requires { IsFilled T.stamp_of node.now }
    ensures step { MatchOption result (newer T.stamp_of than (node_items node.entry.now) ≡ [])
        (λ found. newer T.stamp_of than (node_items node.entry.now)
        ≡ found.item.now
        ∷ newer T.stamp_of than (found.items.now ++ items_in leaf_items found.leaves.now)) }
    ensures sound { IfSome result (λ found.
        AreSound leaf_items (IsDated T.stamp_of) found.leaves.now) }
{
    if node.newest() > than {
        newer_in_leaves(node.parts.as_slice(), than)
    } else {
        None
    }
}

/// The same of the items of nodes, and the nodes behind the one in which it stands.
fn newer_in_nodes<'a, T: Keyed>(
    nodes: &'a [Arc<Node<Leaf<T>>>],
    than: u64,
) -> Option<(Found<'a, T>, &'a [Arc<Node<Leaf<T>>>])>
    requires { AreSound node_items (IsFilled T.stamp_of) nodes.now }
    ensures step { MatchOption result
        (newer T.stamp_of than (items_in node_items nodes.entry.now) ≡ [])
        (λ found. newer T.stamp_of than (items_in node_items nodes.entry.now)
        ≡ found.0.item.now ∷ newer T.stamp_of than (found.0.items.now
        ++ (items_in leaf_items found.0.leaves.now ++ items_in node_items found.1.now))) }
    ensures leaves { IfSome result (λ found.
        AreSound leaf_items (IsDated T.stamp_of) found.0.leaves.now) }
    ensures nodes { IfSome result (λ found.
        AreSound node_items (IsFilled T.stamp_of) found.1.now) }
{
    let mut left = nodes;
    'nodes: while let Some((node, nodes)) = left.split_first() {
        if let Some(found) = newer_in_node(&**node, than) {
            return Some((found, nodes));
        }
        left = nodes;
    }
    None
}

impl<'a, T: Keyed> Iterator for Newer<'a, T> {
    type Item = &'a T;

    ghost next_gives = { YieldsFirstRef (λ left. left) };

    ghost remaining = { item_count (λ left. left) };

    fn next(&mut self) -> Option<&'a T> {
        if let Some((item, rest)) = newer_item(self.items, self.than) {
            self.items = rest;
            return Some(item);
        }
        if let Some(found) = newer_in_leaves(self.leaves, self.than) {
            self.items = found.items;
            self.leaves = found.leaves;
            return Some(found.item);
        }
        let (found, nodes) = newer_in_nodes(self.nodes, self.than)?;
        self.items = found.items;
        self.leaves = found.leaves;
        self.nodes = nodes;
        Some(found.item)
    }
}
