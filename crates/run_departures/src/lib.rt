//! The departures of runs at a stop and at its children, one after another, by the timetable and by
//! what feeds say.
//!
//! [`departures`] hands them out in order, from an instant on and up to another, out of the index
//! of a timetable (`stop_index`) and the overlays of the feeds of a schedule (`run_overlay`). A
//! reader who wants five rows pays for five departures, and for the first one of each feed at each
//! stop. They are those of `departures_of_board` (`specs/Board`), and their rows are those that
//! `board_defs` defines of all runs, in order.
//!
//! At each stop there is one source of departures by the timetable, of the runs for which no update
//! counts, and one for each feed, of the runs for which its update is the one that counts. An
//! update that is too old does not count; of several feeds that have one the later counts, then
//! that of the lower number (`specs/Bids`). Each source is in order, and each step takes the first
//! of their heads. No step takes memory.
//!
//! It stands on `stop_index` and `run_overlay`, and on the definitions of `board_defs`.
#![tactic(auto)]

mod asked;
mod departure;
mod feed;
mod live;
mod look_up;
mod merged;
mod queue;
mod scheduled;
mod source;
mod winner;

pub use asked::Asked;
pub use board_defs::RowState;
pub use departure::Departure;
pub use feed::LiveFeed;
pub use merged::{RunDepartures, departures};
pub use std::alloc::AllocError as NoMemory;
