//! What a feed holds under each id, message by message.
//!
//! A contract sees a `Table` as the list of its ids in byte order, each with its entity and the
//! stamp of the message that brought it: the list that `feed_defs` calls `entities_of`. `apply`
//! makes the table after one message more and leaves the given one; the two share every entity that
//! the message does not touch, and what they take up together grows with the message and hardly
//! with the table. Its steps can be taken one by one: `start` is what a message goes on from,
//! `with` and `without` change a table at one id, and `share` keeps the table that is changed. Each
//! change also gives what the id had before. `newer` gives what came after a stamp, and passes over
//! what the table shares with earlier ones. An entity goes in as a `SharedStored`, of which another
//! table may hold a further share. `first_table` takes the entities out of a message that goes on
//! from nothing, and makes the table of them at once.
//!
//! It stands on `shared_list` for the order and the sharing, on `keyed_lists` for lists that are
//! made at once, and on `feed_defs` for what a message changes.
#![tactic(auto)]

mod changes;
mod first;
mod stored;
mod table;

pub use changes::{ChangedTable, apply};
pub use feed_defs::Stored;
pub use first::first_table;
pub use std::alloc::AllocError as NoMemory;
pub use stored::SharedStored;
pub use table::{NewerEntities, Table, TableIter};
