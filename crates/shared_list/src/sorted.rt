//! Nodes made of items that are in order already.

ghost use Rattle.std.specs.Prelude.{◌≡◌, ◌<◌, length, IfOk};
ghost use Rattle.std.specs.List.{AllByRecursion, flat_map};
ghost use Rattle.shared_list.specs.Parts.{items_in, leaf_items, node_items};
ghost use Rattle.shared_list.specs.Parts.{AreSound, IsDated, IsFilled};

use crate::NoMemory;
use crate::keyed::Keyed;
use crate::leaf::Leaf;
use crate::node::Node;
use crate::split::{LEAF_MOST, NODE_MOST};
use std::alloc::Global;
use std::sync::Arc;

/// Cuts items into pieces of so many at most, in their order, none of them empty. All but the first
/// are full.
fn pieces_of<X: Drop>(alloc: Global, items: Vec<X>, most: usize) -> Result<Vec<Vec<X>>, NoMemory>
    requires { 0 < most }
    ensures items { IfOk result (λ pieces.
        flat_map (λ piece. piece.items) pieces.items ≡ items.items) }
    ensures filled { IfOk result (λ pieces.
        AllByRecursion (λ piece. 0 < length piece.items) pieces.items) }
{
    let mut left = items;
    let mut pieces = Vec::with_capacity(alloc, left.len().div_ceil(most))?;
    // The last piece comes first, since a vector gives its end away at no cost to what is left.
    'pieces: while !left.is_empty() {
        let at = left.len().saturating_sub(most);
        pieces.push(left.split_off(at)?)?;
    }
    pieces.reverse();
    Ok(pieces)
}

/// Leaves of such pieces.
fn leaves_of<T: Keyed>(alloc: Global, pieces: Vec<Vec<T>>) -> Result<Vec<Arc<Leaf<T>>>, NoMemory>
    requires { AllByRecursion (λ piece. 0 < length piece.items) pieces.items }
    ensures items { IfOk result (λ leaves. items_in leaf_items leaves.items
        ≡ flat_map (λ piece. piece.items) pieces.items) }
    ensures sound { IfOk result (λ leaves.
        AreSound leaf_items (IsDated T.stamp_of) leaves.items) }
{
    let mut leaves = Vec::with_capacity(alloc, pieces.len())?;
    for piece in pieces {
        leaves.push(Arc::new(alloc, Leaf::of(piece))?)?;
    }
    Ok(leaves)
}

/// Nodes of pieces of leaves.
fn nodes_over<T: Keyed>(
    alloc: Global,
    pieces: Vec<Vec<Arc<Leaf<T>>>>,
) -> Result<Vec<Arc<Node<Leaf<T>>>>, NoMemory>
    requires filled { AllByRecursion (λ piece. 0 < length piece.items) pieces.items }
    requires sound { AreSound leaf_items (IsDated T.stamp_of)
        (flat_map (λ piece. piece.items) pieces.items) }
    ensures items { IfOk result (λ nodes. items_in node_items nodes.items
        ≡ items_in leaf_items (flat_map (λ piece. piece.items) pieces.items)) }
    ensures sound { IfOk result (λ nodes.
        AreSound node_items (IsFilled T.stamp_of) nodes.items) }
{
    let mut nodes = Vec::with_capacity(alloc, pieces.len())?;
    for parts in pieces {
        nodes.push(Arc::new(alloc, Node::of(parts))?)?;
    }
    Ok(nodes)
}

/// Nodes that have just these items, as full as can be.
pub(crate) fn nodes_of<T: Keyed>(
    alloc: Global,
    items: Vec<T>,
) -> Result<Vec<Arc<Node<Leaf<T>>>>, NoMemory>
    ensures items { IfOk result (λ nodes. items_in node_items nodes.items ≡ items.items) }
    ensures sound { IfOk result (λ nodes.
        AreSound node_items (IsFilled T.stamp_of) nodes.items) }
{
    let leaves = leaves_of(alloc, pieces_of(alloc, items, LEAF_MOST)?)?;
    nodes_over(alloc, pieces_of(alloc, leaves, NODE_MOST)?)
}
