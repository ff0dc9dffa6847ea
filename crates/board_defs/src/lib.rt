//! The words for boards: what all feeds say, which update a run has, the rows of a board, and the
//! combined feed of a schedule.
//!
//! Its code is types that it shares with the crates above: a row of a board, what a board is asked
//! for, and a call of an added trip. `specs/Fold` is what each feed of a hub says; `specs/Choice`
//! which of several updates counts for a run and for an added trip; `specs/Rows` the rows of a
//! board, as a filter of all runs and all their places and of the calls of added trips;
//! `specs/Feed` the combined feed; `specs/Views` what views of feeds and of a hub stand for. Whole
//! boards are computed in `proofs/`.
//!
//! It stands on the definitions of messages, timetables, matching and delays, and on `order`.
#![tactic(auto)]

mod call;
mod query;
mod row;

pub use call::Call;
pub use query::BoardQuery;
pub use row::{Row, RowState};
