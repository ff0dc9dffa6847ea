//! The lines of a script of `hub replay`: what comes in, and the lines that answer a message.
//!
//! A [`Window`] holds the bytes of a script that were read and not yet used, whatever pieces the
//! input comes in. [`line_end`] finds the line in front of some bytes, and [`parse_line`] says
//! which record it is, by the definitions of `hub_replay_defs`. [`reply_line`] is the line that
//! says how an offered message was taken.
//!
//! What the layer above may rely on:
//! - a line is told exactly as defined, with its numbers in range, or it is no record;
//! - the bytes in hand are those of the input, each once and in order, up to the most that a script
//!   may have; a failing read changes none of them;
//! - a reply has the bytes of its definition.
//!
//! The crate knows nothing of hubs, boards and connections, so it is proved next to them. It stands
//! on `hub_core` for refusals, on `hub_outside` for the input, and on `percent_encoding` for the
//! escapes of a word.
#![tactic(auto)]

mod lines;
mod replies;
mod window;

pub use lines::{LONGEST_LINE, Line, LineFault, is_json, line_end, parse_line};
pub use replies::{reply_line, too_long_line};
pub use std::alloc::AllocError as NoMemory;
pub use window::{LONGEST_SCRIPT, Refill, Window};
