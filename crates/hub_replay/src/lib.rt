//! Reads and runs the scripts of `hub replay`, over any input and output.
//!
//! [`replay`] reads a script in pieces, does its records in order and writes what they print. Its
//! contract says which bytes were written and which status the command ends with, by the
//! definitions of `hub_replay_defs`, which speak of the whole input as a list. A script works on
//! the hub of a configuration that is given, or declares its feeds itself. [`parse_line`] says
//! which record a line is.
//!
//! The parts by job: `feeds` (the hub that a script works on), `records` (one whole record),
//! `connections` (the one that serves a connection), `steps` (one step of a replay), `running` (all
//! of them) and `ending` (the last bytes, and the status).
//!
//! The crate stands on `script_lines` for the lines of a script, on `hub_state` for the hub, on
//! `view_answers` for the answers to questions, on `http_serve` for connections, and on
//! `hub_outside` for input and output.
#![tactic(auto)]

mod connections;
mod ending;
mod feeds;
mod records;
mod running;
mod steps;

pub use ending::replay;
pub use script_lines::{Line, LineFault, parse_line};
pub use std::alloc::AllocError as NoMemory;
