//! A hub that runs: ingesters at their ports beside readers at their doors.
//!
//! [`run_serve`] opens a hub, brings in the messages of each port and serves the connections of
//! each door, each in a thread of its own where one can be had, and closes the hub when all have
//! ended. Then it writes a line for each feed and one for the readers, and answers the program's
//! exit status. Its contract is one record, `Ran` of `specs/Runs`:
//! - all that the ports' messages became stands in one legal history, that of the ended hub; of
//!   each feed it has just the well-formed messages that were newer than all before them
//!   (`specs/Feeds`);
//! - each door's connections were served as `http_door` says, and what its reader knew at the end
//!   begins the ended history (`specs/Readers`);
//! - the lines and the status are those of what came of it.
//!
//! Where no hub is had for want of memory, nothing was asked, served or written. What no contract
//! knows is the order in time: that readers see what was published before, and that all goes on
//! side by side, is shown by tests alone.
//!
//! It stands on `hub_shared` for the hub and its ingesters, on `http_door` for readers, on
//! `place_jobs` for the threads, and on `serve_lines` for the lines.
#![tactic(auto)]

mod closing;
mod feeds;
mod naming;
mod opening;
mod readers;
mod running;
mod telling;
mod working;

pub use running::run_serve;
pub use std::alloc::AllocError as NoMemory;
