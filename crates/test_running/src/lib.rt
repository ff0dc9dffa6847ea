//! Tests of the parts of a running hub, over their public contracts alone: ended histories,
//! permits, locks with a key, jobs of places, snapshots, and the hub that ingesters and readers
//! share.
//!
//! Each test is proved safe, and then run. Those of snapshots and of the shared hub run threads
//! beside one another, and what their threads tell is the same whatever the schedule was.
#![tactic(auto)]

#[cfg(test)]
mod counting;
#[cfg(test)]
mod feeding;
#[cfg(test)]
mod granting;
#[cfg(test)]
mod histories;
#[cfg(test)]
mod ingesting;
#[cfg(test)]
mod looking;
#[cfg(test)]
mod sharing;
#[cfg(test)]
mod showing;
#[cfg(test)]
mod working;
