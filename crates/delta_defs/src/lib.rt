//! The words for what changed between two combined feeds of a schedule, and for the views that a
//! reader keeps.
//!
//! This crate has no code. `specs/Changes` is the difference of two combined feeds as a
//! differential message of GTFS Realtime; `specs/Kept` the list of what all feeds said at a
//! reader's last looks, by the numbers of their messages; `specs/OneHistory` says that these and a
//! later view are of one history, and what a feed then still holds. Whole differences are computed
//! in `proofs/`.
//!
//! It stands on the definitions of boards, messages and timetables.
#![tactic(auto)]

ghost use Rattle.std.specs.Prelude.{◌≡◌, ℕ, List};
