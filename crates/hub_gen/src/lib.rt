//! Makes a sample of a timetable and messages, and runs the hub on it.
//!
//! [`generate`] gives the files and the offers of a sample, of a seed and its sizes; [`run_sample`]
//! makes one, loads its timetable, offers its messages to a hub, asks for ten boards and gives the
//! line that is printed. What these are is defined in `hub_gen_defs` and `hub_main_defs`
//! (`Samples.sample_lines`), and each answer is what is defined, or want of memory. No file, clock
//! or random source of the system is asked.
//!
//! `lines` and `network` write the files, each in a buffer of its size; `entities` draws what
//! messages say, `messages` makes their bytes; `running` and `boards` do what a hub does with them.
//!
//! The crate stands on `hub_gen_defs`, on `feed_write` for the bytes of messages, on `hub_load` for
//! the timetable, on `hub_state` for the hub, on `board_core` for boards and on `hub_outside` for
//! files in memory.
#![tactic(auto)]

mod boards;
mod entities;
mod lines;
mod messages;
mod network;
mod running;
mod sample;

pub use hub_load::HubFault;
pub use running::run_sample;
pub use sample::{Offer, Sample, generate};
pub use std::alloc::AllocError as NoMemory;
