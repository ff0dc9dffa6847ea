//! Loads a timetable from a folder of files.
//!
//! `load` reads the eight files of a GTFS dataset, one after another, and gives the `Plan` of their
//! rows, or the first fault. The bytes of a file are let go once its rows are read. What it means
//! is said in `sched_load_defs` (`specs/Loading.antt`): each answer is what `timetable` tells of
//! the files, the folder and the configuration, but for want of memory, and for a file that could
//! not be read, which the count of faults of the files bears out. Where the files tell which one it
//! was, what comes before it in the order of loading had no fault (`specs/Stops.antt`).
//!
//! The steps stand by subject: `files` reads the rows of one file, which `row_tables` holds with
//! their order by id, `gather` takes the rows of stop_times.txt one by one and keeps them as
//! visits, `visits` puts these trip by trip, `groups` and `services` do so for exceptions,
//! `frequencies` reads frequencies.txt, `tables` reads all eight files, `check` judges the times of
//! trips by row of trips.txt, `times`, `days` and `build` make the lists of the plan, into which
//! `freq_parts` puts the trips of frequencies.txt. `specs/Answer.antt` has the word by which each
//! step says what it told (`AnswersFromFiles`).
//!
//! The crate stands on `sched_load_defs`, `row_tables`, `gtfs_rows`, `service_day`, `sched_types`,
//! `freq_parts` with `freq_runs`, and `hub_outside`.
#![tactic(auto)]

mod build;
mod check;
mod days;
mod files;
mod frequencies;
mod gather;
mod groups;
mod loading;
mod services;
mod tables;
mod times;
mod visits;

pub use loading::load;
pub use sched_load_defs::{File, LoadFault, PlanConf};
