//! Reads GTFS Realtime messages from bytes.
//!
//! `read_message` gives the message of the bytes or their first fault, exactly as `feed_defs`
//! defines both; `read_message_on` gives the same, and reads the entities of a large message on
//! several threads. The crate stands on `field_read` for single fields, on `pb_wire` for the fields
//! of the bytes, on `rt_types` for the values and on the crate `rayon` for the threads.
//!
//! Each of the sixteen messages is an `impl` of `Message`: which fields it knows, and how they fill
//! it, a line for each row of its table. A message is filled in place, since a large struct that is
//! answered by value is copied at each call. The kinds of rows that are messages are generic
//! functions, written once.
#![tactic(auto)]

mod alert;
mod descriptor;
mod feed;
mod message;
mod nested;
mod on_threads;
mod read;
mod trip_update;
mod vehicle;

pub use field_read::ReadFault;
pub use on_threads::read_message_on;
pub use read::read_message;
pub use std::alloc::AllocError as NoMemory;
