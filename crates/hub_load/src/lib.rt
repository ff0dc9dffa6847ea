//! Loads all timetables of a configuration.
//!
//! [`load_plans`] reads the configuration at a path, loads each of its timetables in their order,
//! and gives them with its feeds as `Plans`, or the line of the first fault. What these are is
//! defined in `hub_main_defs` (`Hubs.schedules_at`). [`load_configured`] gives the configuration
//! beside them. [`conf_at`] gives the configuration alone and [`load_plan`] the timetable of one
//! schedule, for a caller that keeps less than all of them.
//!
//! The layer above may rely on this: where the files are told, an answer is the one that is
//! defined; a file fault comes only where the files' count of faults rose, and where they tell
//! which file it was, nothing that is read before it is at fault (`specs/Stops.antt`); and the
//! files stay as they were. Want of memory may come in place of any answer.
//!
//! The crate stands on `hub_config` for the configuration, on `sched_load` for the timetables, on
//! `sched_types` for what holds them and on `hub_outside` for the files.
#![tactic(auto)]

mod conf;
mod fault;
mod loading;
mod plan;
mod words;

pub use conf::conf_at;
pub use fault::HubFault;
pub use loading::{Configured, load_configured, load_plans};
pub use plan::load_plan;
pub use std::alloc::AllocError as NoMemory;
