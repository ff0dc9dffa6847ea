//! Bytes on the wire: reads the fields of a Protocol Buffers message, and writes fields.
//!
//! `read_fields` tells where each field of the bytes lies, exactly as `pb_wire_defs` says which
//! bytes spell a list of fields, or names the first fault. `field_at` gives the field in front as a
//! borrow, for readers that take one after another. Both go over the bytes once and copy no
//! payload. Groups are read, up to 64 deep, in a loop over their tags, with no memory but a fixed
//! array. `write_varint`, `write_scalar`, `write_four` and `write_field` append the one spelling
//! that a writer chooses; where memory runs out, what was written before stays as it was.
//!
//! It stands on `pb_wire_defs` for the meaning of all of this.
#![tactic(auto)]

mod fault;
mod field;
mod fields;
mod groups;
mod numbers;
mod part;
mod payloads;
mod reading;
mod writing;

pub use fault::WireFault;
pub use field::{Field, Payload};
pub use fields::read_fields;
pub use part::{Part, PartPayload};
pub use reading::field_at;
pub use std::alloc::AllocError as NoMemory;
pub use writing::{
    write_field, write_four, write_length, write_long_length, write_scalar, write_varint,
};
