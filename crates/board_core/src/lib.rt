//! The rows of departure boards, and what they are about.
//!
//! `rows` gives the rows of a board exactly as `board_defs` defines them, of what a view keeps and
//! so of each history that it stands for, and `subjects` what these rows are about, as
//! `alert_select` takes it. `feeds` has the feeds of a schedule with the overlays of what they
//! hold, `added` the updates of added trips, `line` the departures of runs and the rows of added
//! trips, `sorting` their order, and `row_texts` the texts of those that are shown. The departures
//! of runs come in order from `run_departures`, and only as many as a board has rows are taken.
//!
//! A departure is shown at the stop to which an update moves it, and else at that of the timetable.
//!
//! The view that they are of, and the oracle where readers get it, are those of `board_parts`,
//! handed on.
//!
//! It stands on `board_parts` for the view of a hub, on `run_departures` for the departures of
//! runs, on `board_added` for the rows of added trips, and on the definitions of `board_defs`; for
//! what rows are about on `alert_select`.
#![tactic(auto)]

mod added;
mod board;
mod fault;
mod feeds;
mod line;
mod row_texts;
mod sorting;

pub use alert_select::{AddedKey, Subject};
pub use board::{rows, subjects};
pub use board_defs::{BoardQuery, Row, RowState};
pub use board_parts::{HubView, Oracle};
pub use fault::RowsFault;
pub use feed_defs::Entry;
pub use std::alloc::AllocError as NoMemory;
