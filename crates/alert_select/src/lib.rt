//! Which alerts are active at a moment, and which stops and rows of boards they touch.
//!
//! [`active`], [`touches`] and [`concerns`] answer just what `alert_defs` says, and take no memory.
//! What a selector names is looked up once, and not anew for each row. [`AlertIndex`] holds the
//! alerts of a feed beside its table, so that a reader need not go over all that the feed holds.
//! `build` makes it of a whole table; `start` and `with` go on with a message entity by entity, so
//! that no message costs such a walk, and one entity is on the heap for both.
//!
//! It stands on `alert_defs` for the rules, on `trip_match` for what a selector's trip is about, on
//! `sched_types` for the timetable and on `entity_table` for what a feed holds.
#![tactic(auto)]

mod activity;
mod aim;
mod holding;
mod index;
mod subject;
mod touching;

pub use activity::active;
pub use index::{AlertIds, AlertIndex};
pub use std::alloc::AllocError as NoMemory;
pub use subject::{AddedKey, Subject};
pub use touching::{concerns, touches};
