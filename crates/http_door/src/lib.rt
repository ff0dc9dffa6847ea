//! The connections of a door, one after another.
//!
//! [`serve_door`] takes a link of a door, serves it by a `http_serve::ConnectionServer` and gives
//! it back, until the door ends or fails. Its contract is one record, `ServesDoor` of
//! `specs/Doors`: the links that were handed out, each served from where the one before it left
//! clock and oracle, and the report that counts them.
//!
//! What the layer above may rely on:
//! - each link that was handed out is given back, whatever came of it, and in the same order;
//! - what a connection is promised it gets here too, number by number and byte by byte: clock and
//!   oracle go on from link to link, and nobody else asks them;
//! - it returns at the door's first end or fault, and tells which;
//! - the numbers of the report stop at the last one of 64 bits.
//!
//! A door may never end, so it may wait; a gate is passed before and behind each connection. The
//! crate stands on `http_serve`, which waits for nobody but a connection's two ends.
#![tactic(auto)]

mod report;
mod serving;

pub use report::{DoorEnd, DoorReport};
pub use serving::serve_door;
