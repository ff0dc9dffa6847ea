//! Reads single fields of GTFS Realtime messages: numbers, enums and texts among the fields of one
//! message.
//!
//! `Slots` notes what occurs under each number while the fields of a message are read, each of them
//! once. `Fields` are those fields with their slots: what occurs once under its number is found in
//! its slot, and only what occurs there several times is gone over again. The numbers on the wire
//! are `impl`s of `Scalar`, the enums among them; `last` gives the value that counts of a number,
//! `text` of a text, or that it isn't UTF-8. `ReadFault` is why a message can't be read.
//!
//! It stands on `pb_wire` for the fields and on `feed_defs` for what they say.
#![tactic(auto)]

mod enums;
mod fault;
mod fields;
mod iter;
mod payload;
mod scalar;
mod slots;

pub use fault::{ReadFault, malformed};
pub use fields::Fields;
pub use iter::Spans;
pub use payload::{is_span, text};
pub use scalar::{Scalar, is_scalar, last, said_at};
pub use slots::{Occurs, Slots};
pub use std::alloc::AllocError as NoMemory;
