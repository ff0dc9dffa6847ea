//! Which run of a timetable a TripDescriptor is about: the definition, and the types of its answer.
//!
//! The definition is a function that computes. `specs/Matching.antt` has the whole: `match_of`
//! takes a timetable, a trip descriptor and an instant, and gives a `Found`: six rules, and one for
//! the trips of frequencies.txt between the third and the fourth, of which the first that applies
//! decides. `specs/Texts.antt` has the texts of a descriptor. They follow GTFS Realtime
//! (TripDescriptor), which leaves the day of a trip without a start_date to the consumer; that it
//! is the day whose span lies nearest to the message's instant is a rule of this project.
//!
//! The crate stands on `sched_types` for timetables, on `service_day` for the calendar and on
//! `rt_types` for trip descriptors. Its only code is `Found` and `Why`, and `Near`, which the
//! search for the day speaks of.
#![tactic(auto)]

mod found;

pub use found::{Found, Near, Why};
