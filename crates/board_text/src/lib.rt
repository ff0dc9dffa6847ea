//! Boards and the lists beside them as bytes: lines of fields between tabs, and JSON (RFC 8259).
//!
//! `board_text` and `board_json` append the board of a stop to what a vector holds, just as
//! `board_text_defs` spells it, or leave the vector as it was where memory is wanting.
//! `alerts_text`, `alerts_json`, `unmatched_text` and `status_text` do the same for the lists
//! beside a board, of a view of a hub, whose feeds they show by their names. `lines` has a line of
//! fields, as every list of a hub is printed: foreign texts in it are cleaned of control
//! characters, so none breaks its line.
//!
//! It stands on `board_parts` for the view and the walk over its feeds, on `texts` for cleaned
//! texts, and on the kit's crates `itoa` and `json`, which spell numbers and tokens where they are
//! written: no cell takes memory of its own, and no tree is made.
#![tactic(auto)]

mod alert_lines;
mod alert_tokens;
mod as_json;
mod as_text;
mod cells;
mod lines;
mod status_lines;
mod unmatched_lines;
mod words;

pub use alert_lines::alerts_text;
pub use alert_tokens::alerts_json;
pub use as_json::board_json;
pub use as_text::board_text;
pub use status_lines::status_text;
pub use std::alloc::AllocError as NoMemory;
pub use unmatched_lines::unmatched_text;
