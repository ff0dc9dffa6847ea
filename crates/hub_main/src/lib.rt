//! The commands of the program `hub`, over any files, input, output and clock.
//!
//! [`run_offline`] judges the words of the command line, runs the command and answers the program's
//! exit status. `replay` reads a script from the input, on the timetables of a configuration or
//! without; `check` reads a configuration and its timetables and writes what is in them; `board`
//! writes a board of them; `gen` makes a sample, runs the hub on it and writes what came of it. Its
//! contract says which bytes were written, by one word for each command (`Offline.OutcomeOf`) over
//! what files, input and output tell before and after, and by the definitions of the commands'
//! outputs in `hub_main_defs`. [`run_on_system`] runs it on the system's own outside, with the
//! words that [`words_of`] makes.
//!
//! [`prepare_serve`] reads what `serve` needs before a hub is opened, and writes what is wrong as
//! the commands do.
//!
//! The crate stands on `hub_words` for the words, on `hub_replay` for scripts, on `hub_load` and
//! `hub_check` for the configuration and the timetables, on `view_answers` for boards, on `hub_gen`
//! for samples, and on `hub_outside` for everything else.
#![tactic(auto)]

mod boards;
mod offline;
mod preparing;
mod system;

pub use offline::run_offline;
pub use preparing::{Prepared, ServeConf, prepare_serve};
pub use std::alloc::AllocError as NoMemory;
pub use system::{run_on_system, words_of};
