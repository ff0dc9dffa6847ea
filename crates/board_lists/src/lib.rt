//! The lists beside a board: the alerts that a query lists, and the trips that no run of the
//! timetable stands for.
//!
//! `alerts` and `unmatched` give just what `alert_defs` defines, of what a view of a hub keeps and
//! so of each history that it stands for. `active_alerts` goes over the alerts of a schedule's
//! feeds, which each feed's view keeps next to its table, and takes those that are active at the
//! asked moment; `concerning` keeps those that touch what is asked for, and `heading` makes a row
//! of one. What the rows of the board are about is asked for only where an alert is active.
//! `unmatched_trips` lists the trips that are no run, and why.
//!
//! It stands on `board_core` for what a board's rows are about, on `board_parts` for the walks over
//! a view, on `alert_select` for when an alert is active and what it touches, and on `trip_match`
//! for what a trip is about.
#![tactic(auto)]

mod active_alerts;
mod concerning;
mod heading;
mod unmatched_trips;

pub use alert_defs::{AlertRow, Unmatched};
pub use board_core::RowsFault;
pub use concerning::alerts;
pub use std::alloc::AllocError as NoMemory;
pub use unmatched_trips::unmatched;
