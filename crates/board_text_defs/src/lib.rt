//! What the answers to questions about a hub look like, byte for byte.
//!
//! `specs/Lines` is a line of fields between tabs, as every list is printed. `specs/BoardText` and
//! `specs/BoardJson` are a board as text and as JSON, `specs/Alerts` a list of alerts in both,
//! `specs/UnmatchedText` a list of unmatched trips, `specs/Status` the status of a hub.
//! `specs/Answers` says what is answered to a question by the name of a schedule. Whole answers are
//! computed in `proofs/`. Of code there is only what names a board that is asked for: its fields
//! and their limits.
//!
//! It stands on `board_defs`, and on the kit's crate `json` for how JSON is spelled.
#![tactic(auto)]

mod asked;

pub use asked::{BoardAsked, LONGEST_SPAN, MOST_ROWS};
