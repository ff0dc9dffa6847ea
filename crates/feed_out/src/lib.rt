//! The combined feed of a schedule: what all its feeds say, in one message.
//!
//! `push_combined` appends the bytes of a whole data set of version 2.0, with the greatest of the
//! feeds' last stamps, and the entities of the schedule's feeds by feed and then by id. Each has
//! its own id under its feed's name, as `<feed>:<id>`, and the ids of the timetable in it under the
//! schedule's prefix. `combined` gives them by themselves. `push_header` and `newest_stamp` are its
//! header and its stamp, for other messages of a schedule.
//!
//! It stands on `board_parts` for what the feeds hold, and on `feed_write` for the bytes.
#![tactic(auto)]

mod entities;
mod message;

pub use message::{combined, newest_stamp, push_combined, push_header};
pub use std::alloc::AllocError as NoMemory;
