//! Tests of a hub that runs, over the public contracts of `hub_serve` and of what it stands on:
//! ingesters at their ports beside readers at their doors.
//!
//! Each test is proved safe, and then run. What no contract knows, that all work goes on side by
//! side and that readers see what was published before, is shown here: gates hold threads until
//! others have come by.
#![tactic(auto)]

#[cfg(test)]
mod beside;
#[cfg(test)]
mod cuts;
#[cfg(test)]
mod faults;
#[cfg(test)]
mod gates;
#[cfg(test)]
mod receipts;
#[cfg(test)]
mod runs;
