//! The trips that frequencies.txt derives (GTFS Schedule, frequencies.txt, exact_times 1).
//!
//! A trip that frequencies.txt names is a pattern: its stop times say how long it takes from stop
//! to stop. A row says when it runs: from a time on, every so many seconds, up to another time.
//! [`derive`] makes of each such start a trip with an id and times of its own, as `specs/Trips`
//! defines them, or answers the first fault of the rows (`specs/Faults`): more places than a
//! timetable may have, or an id that is there already. The layer above may rely on just that, value
//! or fault; want of memory may come in place of any answer. No memory is taken for the trips of a
//! row that has too many.
//!
//! It stands on `rt_types` for texts and on `answer_defs`; [`Times`] is seen by contracts as a
//! list.
#![tactic(auto)]

mod clock;
mod derivation;
mod fault;
mod ids;
mod rows;
mod starts;
mod times;
mod trips;

pub use derivation::derive;
pub use fault::DeriveFault;
pub use rows::{Derived, Frequency, Pattern};
pub use rt_types::{NoMemory, Text};
pub use starts::MOST_PLACES;
pub use times::{PlaceTime, Times};
