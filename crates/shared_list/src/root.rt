//! The nodes of a list, which its versions share until one of them changes.

ghost use Rattle.std.specs.Prelude.{◌≡◌, [], IfOk, OnOk};
ghost use Rattle.std.specs.FinMap.{put};
ghost use Rattle.shared_list.specs.Order.{entries, item_with, without, Rises};
ghost use Rattle.shared_list.specs.Parts.{items_in, node_items, AreSound, IsFilled};

use crate::NoMemory;
use crate::keyed::{KeyFor, Keyed};
use crate::leaf::Leaf;
use crate::node::Node;
use crate::shared::{item_in, put_shared, share, take_out_shared};
use std::alloc::Global;
use std::marker::Model;
use std::sync::Arc;

/// The nodes of one list, or of several versions of it. A contract sees the nodes.
#[derive(Drop)]
pub(crate) struct Root<T: Keyed> {
    alloc: Global,
    // None where there never was a node, so that a list without items takes no memory.
    nodes: Option<Arc<Vec<Arc<Node<Leaf<T>>>>>>,
}

impl<T: Keyed> Model for Root<T> {
    ghost use Rattle.std.specs.Prelude.{List};
    ghost use Rattle.std.specs.declared.sync.Arc.{Arc};
    ghost use Rattle.std.specs.declared.alloc.Global.{Global};
    ghost use Rattle.shared_list.specs.declared.leaf.Leaf.{Leaf};
    ghost use Rattle.shared_list.specs.declared.node.Node.{Node};

    ghost Value = { List (Arc (Node (Leaf T)) Global) };

    ghost use Rattle.shared_list.specs.Parts.{nodes_of};

    ghost view = { λ root. nodes_of root.nodes };
}

impl<T: Keyed> Root<T> {
    /// No nodes.
    pub(crate) fn empty(alloc: Global) -> Root<T>
        ensures { result ≡ [] }
    {
        Root { alloc, nodes: None }
    }

    /// These nodes, or want of memory.
    pub(crate) fn of(alloc: Global, nodes: Vec<Arc<Node<Leaf<T>>>>) -> Result<Root<T>, NoMemory>
        ensures { IfOk result (λ root. root ≡ nodes.items) }
    {
        Ok(Root {
            alloc,
            nodes: Some(Arc::new(alloc, nodes)?),
        })
    }

    /// The nodes in their order.
    pub(crate) fn nodes(&self) -> &[Arc<Node<Leaf<T>>>]
        ensures { result.now ≡ self.entry.now }
    {
        match &self.nodes {
            Some(nodes) => nodes.as_slice(),
            None => &[],
        }
    }

    /// The same nodes for another version: one share of them all, or want of memory.
    pub(crate) fn share(&self) -> Result<Root<T>, NoMemory>
        ensures { IfOk result (λ same. same ≡ self.now) }
    {
        let nodes = match &self.nodes {
            Some(nodes) => Some(Arc::try_clone(nodes)?),
            None => None,
        };
        Ok(Root {
            alloc: self.alloc,
            nodes,
        })
    }

    /// A share of each node, with room for so many more.
    fn copied(&self, more: usize) -> Result<Vec<Arc<Node<Leaf<T>>>>, NoMemory>
        requires { AreSound node_items (IsFilled T.stamp_of) self.now }
        ensures items { IfOk result (λ same.
            items_in node_items same.items ≡ items_in node_items self.now) }
        ensures sound { IfOk result (λ same.
            AreSound node_items (IsFilled T.stamp_of) same.items) }
    {
        match &self.nodes {
            Some(nodes) => share(&**nodes, more),
            None => Ok(Vec::new(self.alloc)),
        }
    }

    /// Puts the item in its place, which is that of the item with its key, if there is one, and
    /// gives what was there. Nodes that other versions share are each shared once more before.
    pub(crate) fn put(&mut self, item: T) -> Result<Option<T>, NoMemory>
        requires sound { AreSound node_items (IsFilled T.stamp_of) self.old }
        requires rising { Rises T.key_cmp T.key_of (items_in node_items self.old) }
        ensures put { OnOk result (entries T.key_of (items_in node_items self.new)
            ≡ put T.key_cmp (T.key_of item) item (entries T.key_of (items_in node_items self.old))) }
        ensures replaced { IfOk result (λ replaced. replaced
            ≡ item_with T.key_cmp T.key_of (T.key_of item) (items_in node_items self.old)) }
        ensures sound { OnOk result (AreSound node_items (IsFilled T.stamp_of) self.new) }
    {
        if let Some(nodes) = &mut self.nodes {
            if let Some(own) = Arc::get_mut(nodes) {
                return Ok(put_shared(own, item)?.replaced);
            }
        }
        let mut own = self.copied(1)?;
        let replaced = put_shared(&mut own, item)?.replaced;
        self.nodes = Some(Arc::new(self.alloc, own)?);
        Ok(replaced)
    }

    /// Takes the item with that key out, if there is one. Where there is none the nodes stay
    /// shared.
    pub(crate) fn take_out<K: KeyFor<T>>(&mut self, key: K) -> Result<Option<T>, NoMemory>
        requires sound { AreSound node_items (IsFilled T.stamp_of) self.old }
        requires rising { Rises T.key_cmp T.key_of (items_in node_items self.old) }
        ensures without { OnOk result (entries T.key_of (items_in node_items self.new)
            ≡ without T.key_cmp (K.sought key) (entries T.key_of (items_in node_items self.old))) }
        ensures taken { IfOk result (λ taken. taken
            ≡ item_with T.key_cmp T.key_of (K.sought key) (items_in node_items self.old)) }
        ensures sound { OnOk result (AreSound node_items (IsFilled T.stamp_of) self.new) }
    {
        let alloc = self.alloc;
        let Some(nodes) = &mut self.nodes else {
            return Ok(None);
        };
        if let Some(own) = Arc::get_mut(nodes) {
            return take_out_shared(own, key);
        }
        if item_in(nodes.as_slice(), key).is_none() {
            return Ok(None);
        }
        let mut own = share(&**nodes, 0)?;
        let taken = take_out_shared(&mut own, key)?;
        *nodes = Arc::new(alloc, own)?;
        Ok(taken)
    }
}
