//! The words for short texts: numbers, dates, times, names, and texts of others in lines of our
//! own.
//!
//! This crate has no code. Its `specs/` say, after GTFS Schedule ("Field Types"), which bytes write
//! a number (`Numbers`), a day of the Gregorian calendar (`Dates`) and a time of a service day
//! (`Times`), what a name of a schedule or a feed is (`Names`), how a foreign text stands in a line
//! (`Cleaned`), and which moments there are (`Moments`). `proofs/DateLaws` has the laws of the
//! calendar for those who count days.
//!
//! The crate `texts` reads and writes them. This one stands on nothing of this repository.
#![tactic(auto)]

ghost use Rattle.std.specs.Prelude.{◌≡◌, ℕ, List};
