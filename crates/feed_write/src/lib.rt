//! Writes GTFS Realtime messages as bytes.
//!
//! `write_message` appends the bytes of a message as `feed_defs` defines them: its known fields by
//! rising number in shortest varints, and then the fields that it does not know, as they came.
//! Reading them gives the message back. It stands on `pb_wire` for the spelling and on `rt_types`
//! for the values.
//!
//! `write_under_feed` appends one entity of a feed that is made of several: its id under the name
//! of its feed, and the ids of the timetable in it under a prefix, so that those of several
//! timetables differ. No entity is copied for that: an id is written in pieces (`ids`). `rename`
//! gives such an entity as a value.
//!
//! A message is one listing of its fields, in the order of their numbers (`feed`, `trip_update`,
//! `vehicle`, `alert`, `descriptor`), over the functions for each kind of field (`fields`).
#![tactic(auto)]

mod alert;
mod descriptor;
mod enums;
mod feed;
mod fields;
mod ids;
mod message;
mod renaming;
mod scalar;
mod trip_update;
mod vehicle;
mod write;

pub use renaming::rename;
pub use std::alloc::AllocError as NoMemory;
pub use write::{write_message, write_under_feed};
