//! How far a trip is from its timetable at each of its places: the definitions, and the type of
//! their answer.
//!
//! The definitions are functions that compute. `specs/Delays.antt` has the whole: `states` takes a
//! timetable, a run and a trip update, and gives one `StopState` for each place of the run. They
//! follow GTFS Realtime (TripUpdate; Trip Updates, "Stop Time Updates" and the propagation of
//! delays); what the reference leaves open is said at each rule. `specs/Line.antt` has a trip of
//! twenty places, on which `proofs/Examples.antt` computes them, and on the small city of
//! `sched_types`; `proofs/StopLaw.antt` says which stops states can have.
//!
//! The crate stands on `sched_types` for timetables and on `rt_types` for trip updates. Its only
//! code is `StopState`.
#![tactic(auto)]

mod state;

pub use state::StopState;
