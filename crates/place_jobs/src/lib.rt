//! Work on three slices, place by place, each place in a thread of its own.
//!
//! [`each_place`] does a [`PlaceJob`] at the three items of each place, and its contract tells what
//! became of the slices. Where no thread can be had, the caller's does the work itself, after what
//! it is at.
//!
//! It stands on nothing of this repository.
#![tactic(auto)]

mod job;
mod places;

pub use job::PlaceJob;
pub use places::each_place;
