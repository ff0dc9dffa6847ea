//! Tests of what an update means: which run its trip is, and what it tells of each place of it.
//!
//! They call `trip_match` and `delay_rule` by their public contracts. Every test is proved safe,
//! and then it is run.
#![tactic(auto)]

#[cfg(test)]
mod delays;
#[cfg(test)]
mod matching;
