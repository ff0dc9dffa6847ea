//! What a sample is: a timetable and messages made of a seed, what the hub does with them, and what
//! that prints.
//!
//! A sample is made for measuring and comparing: the same seed and sizes give the same files,
//! messages and line everywhere. `Draws` says which numbers a seed gives, `Network` the files of
//! the timetable, `Messages` the messages that are offered, and `Run` what comes of them. The
//! definitions compute. They stand on `sched_load_defs` for the timetable of the files, on
//! `feed_defs` for messages and histories, and on `board_defs` for boards. The crate has no code.
#![tactic(auto)]
