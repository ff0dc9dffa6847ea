//! Tests of timetables: of the rows of their files, their zones and days, their look-ups, the
//! loading of folders, the trips of frequencies.txt, and the departures of a stop.
//!
//! They call `gtfs_rows`, `service_day`, `sched_types`, `freq_runs`, `sched_load_defs`,
//! `sched_load` and `stop_index` by their public contracts. Every test is proved safe, and then it
//! is run.
#![tactic(auto)]

#[cfg(test)]
mod city_files;
#[cfg(test)]
mod days;
#[cfg(test)]
mod departures;
#[cfg(test)]
mod file_names;
#[cfg(test)]
mod folders;
#[cfg(test)]
mod forms;
#[cfg(test)]
mod frequencies;
#[cfg(test)]
mod headways;
#[cfg(test)]
mod plans;
#[cfg(test)]
mod rows;
