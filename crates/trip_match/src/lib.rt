//! Which run of a timetable a TripDescriptor is about.
//!
//! `find` answers exactly what `trip_match_defs` defines, where the crate above reads its contract:
//! the run, that the trip was added, or why there is no match. It takes no memory. A trip is found
//! by its trip_id by a binary search, one of frequencies.txt by one more for its start_time, and
//! without a trip_id by route, direction and first departure in a list that the plan keeps. Without
//! a start_date the days of the window, 400 at most, are gone over once. `find_near` looks for the
//! trip near another one first, as updates often come in the order of their trips.
//!
//! The crate stands on `trip_match_defs`, on `sched_types` for the timetable, on `service_day` for
//! the calendar and on `rt_types` for trip descriptors.
#![tactic(auto)]

mod descriptor;
mod ids;
mod matching;
mod near;
mod neighbours;
mod routes;

pub use matching::{find, find_near};
pub use trip_match_defs::{Found, Why};
