//! A list in the order of its keys, of which several versions share what they have in common.
//!
//! A contract sees a `SharedList` as the list of its items, each with its key, with the words of
//! std's finite maps: `with` is `put`, `get` is `find`. A version is made of another by `share`,
//! and then changed item by item or by many changes at once; the other stays. Each change of one
//! item also gives the item that the key had before. `iter` goes over all items, `from` over those
//! from a key on, and `newer` over those whose stamps are above a given one: what came since an
//! earlier version, where stamps rise.
//!
//! What a key is, and in which order keys stand, is the item's to say (`Keyed`): a text, a number,
//! or several of both in turn. Items are compared where they stand, with each other and with a key
//! in the form in which a caller has it (`KeyFor`), as a `&str` for a text; so no key is built or
//! copied.
//!
//! The cost of a change hardly grows with the list: the items stand in leaves of at most 16, the
//! leaves in nodes of at most 16, and the nodes in one list. `share` takes one share of that list.
//! A version's first change copies it, which is one share of each node; a change copies the node in
//! which the key stands, which is one share of each of its leaves, and the one leaf in which the
//! key stands, and each only once for each version. A key that is put in
//! is searched for once; one that is to go, before a copy is made too, so that what doesn't hold it
//! stays shared. Keys that come in rising order leave full leaves. Each leaf and each node keeps a
//! stamp that none of its items is above, by which `newer` passes over those in which nothing is
//! newer.
//!
//! Both floors are one piece of code: a leaf and a node are each a part (`Part`), a node is made
//! over any kind of part, and what is done to parts that versions may share is written for whatever
//! they are.
//!
//! It stands on `copying` for `Copied`, by which the items of a leaf are copied, and on nothing
//! else of this repository.
#![tactic(auto)]

mod change;
mod iter;
mod keyed;
mod leaf;
mod list;
mod newer;
mod node;
mod part;
mod root;
mod shared;
mod sorted;
mod split;

pub use change::Change;
pub use iter::Iter;
pub use keyed::{KeyFor, Keyed};
pub use list::{Changed, SharedList};
pub use newer::Newer;
pub use std::alloc::AllocError as NoMemory;
