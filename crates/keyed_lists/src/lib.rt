//! Lists by key, and what puts and removals come to in them.
//!
//! A list of items in the order of their keys, each key once, is known by what is found at each
//! key. `specs/Keyed` says what list some items make (`by_key`), and what changes make of a list
//! (`changed`). The laws in `proofs/` tell what is found at a key afterwards: `Effects` has the
//! effect of changes at a key, also of changes in segments each of which owns its keys
//! (`all_changed`) and of items that several things give (`find_given`); `Tables` has lists of what
//! the entries of a table give (`find_of_entries`); `Entries` what is true of each entry; `Once`
//! that a key is held once, and so what an order of the items is; `InOrder` that items in order, or
//! put there by a stable sort, make their list at once; `Among` that items in order, as many as
//! some others and each one of these, are their list; `Turned` what goes and what comes of a
//! thing's items where those that stay at their places are left out. [`changed`] is a list after
//! changes, where the given one stays as it is, [`listed_by_key`] the list of some items, and
//! [`listed_by_rank`] that of many plain items, which are sorted by numbers.
//!
//! It stands on `shared_list` and `order`. The overlay of a feed is made of such lists.
#![tactic(auto)]

mod by_rank;
mod changes;
mod listed;

pub use by_rank::listed_by_rank;
pub use changes::changed;
pub use listed::listed_by_key;
pub use std::alloc::AllocError as NoMemory;
