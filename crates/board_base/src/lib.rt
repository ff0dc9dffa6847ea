//! What alerts, overlays, departures and boards share.
//!
//! `window` says which stops and instants a board asks for and what counts at a moment, `wording`
//! how routes and stops are named, and what the ids of messages name in a timetable.
//!
//! It stands on `rt_types`, `sched_types` and the definitions of `board_defs`.
#![tactic(auto)]

mod window;
mod wording;

pub use window::{counts_at, is_asked, is_within};
pub use wording::{route_name, route_named, stop_id, stop_named, text_of};
