//! Tests of boards and lists over worlds made at random, which are compared with those of a slow
//! scan.
//!
//! `scan` goes over all days, trips and places of a world, as the definitions of `board_defs` say;
//! `lists` over all alerts, selectors and rows, and over all updates and vehicles, as those of
//! `alert_defs` say, and `meaning` over all days and trips for what a descriptor means, as those of
//! `trip_match_defs` say. They share no code with the crates that they judge. `board_tests` and
//! `list_tests` ask a hub of the world for boards and lists. Every test is proved safe, and then it
//! is run.
#![tactic(auto)]

#[cfg(test)]
mod board_tests;
#[cfg(test)]
mod list_tests;
#[cfg(test)]
mod lists;
#[cfg(test)]
mod meaning;
#[cfg(test)]
mod scan;
