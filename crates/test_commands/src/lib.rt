//! Tests of what commands are made of: configurations, words, timetables as they are loaded,
//! samples, records of scripts, the lines of a server, and the outside with its doors and other
//! forms in memory and over the system.
//!
//! They stand over the public contracts of `hub_config`, `hub_words`, `hub_load`, `hub_gen`,
//! `hub_replay`, `hub_outside` and `serve_lines`. Each test is proved safe, and then run: it
//! compares with lines and values that were written by hand, and asks the system itself for files,
//! the time and connections.
#![tactic(auto)]

#[cfg(test)]
mod configurations;
#[cfg(test)]
mod doors;
#[cfg(test)]
mod loading;
#[cfg(test)]
mod outside;
#[cfg(test)]
mod records;
#[cfg(test)]
mod samples;
#[cfg(test)]
mod server_lines;
#[cfg(test)]
mod words;
