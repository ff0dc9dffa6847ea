//! The states of a run's places under a trip update.
//!
//! `walk` appends one `StopState` for each place of a run: what `delay_rule_defs` defines, where
//! the crate above reads its contract. It makes one pass over the places and the updates. A place
//! is found by its stop_sequence by a binary search, and by its stop_id by looking the stop up once
//! and going over the places that are left. `assigned_stop` is the stop to which an update moves
//! its place.
//!
//! Each walk adds one to a count of steps, `Steps`, which takes no bytes and which contracts alone
//! see: so the crates above can promise how many walks they make. The crate stands on
//! `delay_rule_defs`, on `sched_types` for the timetable and on `rt_types` for trip updates.
#![tactic(auto)]

mod delays;
mod pass;
mod places;
mod steps;

pub use delay_rule_defs::StopState;
pub use pass::walk;
pub use places::assigned_stop;
pub use std::alloc::AllocError as NoMemory;
pub use steps::Steps;
