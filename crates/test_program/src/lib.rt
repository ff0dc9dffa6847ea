//! Tests of the whole program: its commands on files, an input and an output in memory, and once on
//! the system's own.
//!
//! They stand over the public contracts of `hub_main` and `hub_words`. Each test is proved safe,
//! and then run. Most are rows of tables: words, files and a script, with the status and the bytes
//! that have to come of them. Every one of them goes through the one call of `run_offline` in
//! `runs`, so a row costs no proof.
#![tactic(auto)]

#[cfg(test)]
mod boards;
#[cfg(test)]
mod checks;
#[cfg(test)]
mod city;
#[cfg(test)]
mod connections;
#[cfg(test)]
mod frequencies;
#[cfg(test)]
mod hostile;
#[cfg(test)]
mod lists;
#[cfg(test)]
mod on_system;
#[cfg(test)]
mod preparing;
#[cfg(test)]
mod rows;
#[cfg(test)]
mod runs;
#[cfg(test)]
mod scripts;
#[cfg(test)]
mod server_word;
#[cfg(test)]
mod two_timetables;
