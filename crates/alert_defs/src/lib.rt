//! The words for alerts, and for trips that the timetable doesn't have.
//!
//! Its code is types that it shares with the crates above: a row of a list of alerts, and one of a
//! list of unmatched trips. `specs/Touching` says which stops and rows a selector of an alert is
//! about; `specs/Alerts` which alerts a query of a board lists; `specs/Unmatched` which trip
//! updates and vehicles are about no run, and why. Whole lists are computed in `proofs/`.
//!
//! It stands on the definitions of boards, matching and timetables.
#![tactic(auto)]

mod rows;

pub use rows::{AlertRow, Unmatched};
