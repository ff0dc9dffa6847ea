//! What it means to load a timetable: the definitions, and the types that they share with the
//! loader.
//!
//! The definitions are functions that compute. `specs/Loading.antt` has the whole: `timetable`
//! takes files, a folder and a configuration, and gives the timetable of the eight files there, or
//! the first fault. Its parts stand by subject: `Files` where the files lie and what a file's rows
//! are, `References` which rows refer to rows that aren't there and which are there twice, `Times`
//! the times of a trip's places, `Services` the days on which services run, `Numbers` how rows are
//! ordered and numbered, `Frequencies` the trips that frequencies.txt gives, `Stops` where loading
//! stops at a file that can't be read. `Examples` computes them on a small dataset and on changed
//! copies of it. All follow the GTFS Schedule Reference.
//!
//! The crate stands on `gtfs_rows` for the rows of a file, on `freq_runs` for derived trips, on
//! `service_day` for the calendar and for zones, on `sched_types` for the timetable that results,
//! and on `hub_outside` for what files are. Its only code is the types `PlanConf`, `File` and
//! `LoadFault`.
#![tactic(auto)]

mod conf;
mod fault;

pub use conf::PlanConf;
pub use fault::{File, LoadFault};
