//! Timetables: the rows of a GTFS Schedule feed in the form in which they are looked up, and the
//! timetables and feeds of one hub.
//!
//! Rows are numbered from 0 in byte order of their ids, and refer to one another by these numbers.
//! A contract sees a `Plan` as the plain record of its lists, `Timetable` (`specs/Timetable.antt`),
//! and each look-up says exactly what of these lists it answers. What is true of every timetable,
//! as that ids rise and that each number leads to a row, is `IsTimetable`, which `Plan::sound`
//! hands to whoever asks.
//!
//! It stands on `texts` and `text_defs`, for short texts and the dates of the window's days, and on
//! `service_day`. Look-ups take no memory.
#![tactic(auto)]

mod children;
mod dates;
mod departures;
mod derived;
mod numbers;
mod plan;
mod plans;
mod rows;
mod running;

pub use plan::Plan;
pub use plans::{NamedFeed, NamedPlan, Plans};
pub use rows::{Counts, Place, PlanDerived, PlanParts, PlanPattern, Route, Run, Stop, Trip};
pub use std::alloc::AllocError as NoMemory;
pub use texts::ShortText as PlanName;
