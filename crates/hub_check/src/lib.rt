//! Checks a configuration and its timetables.
//!
//! [`check`] reads the configuration at a path, loads each of its timetables in their order, and
//! gives the lines that say how much each one has, or the line of the first fault. What the lines
//! are is defined in `hub_main_defs` (`Checks.check_output`).
//!
//! Of each timetable only its numbers are kept, so that one at a time is in memory. The crate
//! stands on `hub_load` for the configuration and the timetables and on `hub_outside` for the
//! files.
#![tactic(auto)]

mod checking;
mod lines;

pub use checking::check;
pub use hub_load::HubFault;
pub use std::alloc::AllocError as NoMemory;
