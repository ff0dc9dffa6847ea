//! What changed in one feed since a reader's earlier look.
//!
//! `push_feed` writes the entities of a differential message (GTFS Realtime 2.0) that bring a
//! reader from what the feed held to what it holds: what went, what came, and what is another than
//! before. The stamps of a feed rise, so an entity with no newer stamp than the feed had is the
//! same as it was, and any other is compared by the bytes that are written of it. Where as many
//! were added as there are more, nothing is gone, and only what has a newer stamp is looked at;
//! else `Left` and `Pairs` go over the two tables side by side, by id.
//!
//! It stands on `entity_table` for what a feed holds, on `feed_write` for the entities, and on the
//! definitions of `delta_defs`.
#![tactic(auto)]

mod feed;
mod left;
mod pairs;
mod sent;

pub use feed::push_feed;
pub use std::alloc::AllocError as NoMemory;
