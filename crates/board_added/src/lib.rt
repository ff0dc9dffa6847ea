//! The rows that added trips have on a board (GTFS Realtime 2.0, TripDescriptor, ADDED).
//!
//! [`added_rows`] gives them exactly as `board_defs` defines them, before their texts are made: of
//! the updates of added trips, for each such trip by the update that counts for it. `choice` says
//! which updates count, `calls` at which stops and when such a trip calls, `row` what a row needs,
//! and `wording` its texts.
//!
//! It stands on `board_parts` for updates and for what any row needs, on `alert_select` for how an
//! added trip is named, and on the definitions of `board_defs`.
#![tactic(auto)]

mod calls;
mod choice;
mod counting;
mod row;
mod wording;

pub use counting::added_rows;
pub use row::AddedRow;
pub use std::alloc::AllocError as NoMemory;
pub use wording::row_text;
