//! The trips of frequencies.txt, put into the lists of a timetable (GTFS Schedule,
//! frequencies.txt).
//!
//! [`with_frequencies`] takes the trips that rows name out of a timetable's lists, as patterns, and
//! puts in the trips that exact rows derive of them; or it answers the first fault of the rows. The
//! layer above may rely on just the timetable, or fault, that `sched_load_defs/specs/Frequencies`
//! defines, and on its being a timetable in which all that is true of every timetable is true; out
//! of memory may come in place of any answer.
//!
//! It stands on `freq_runs` for the derived trips and their faults, on `sched_load_defs` for what
//! is meant, and on `sched_types` for the lists.
#![tactic(auto)]

mod derived;
mod lists;
mod named;
mod parts;
mod patterns;
mod timed;

pub use parts::with_frequencies;
