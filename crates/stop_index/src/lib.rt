//! The departures of a stop between two instants, by a search and not by a scan of the timetable.
//!
//! A departure is a place of a run but the last, at the base of the run's day plus the time of
//! departure. [`StopIndex::build`] goes over the places of a timetable once. [`StopIndex::between`]
//! then hands out each departure of the timetable's runs at a stop from an instant on and up to
//! another, once and in order, as `slots_between` (`specs/Slots`) defines it of runs and places
//! alone. It takes no memory. The index must be that of the very timetable: `index_of`
//! (`specs/Index`) says what an index keeps, and two that are built of one timetable are equal.
//!
//! The index keeps each stop's departures by time of day, on whatever day they run: 12 bytes for
//! each, and 4 for each stop, however many days the window has. The iterator stands at a day, next
//! to the first departure of all other days: as long as that one is not the next, it goes on
//! through the departures of its day. When it is, the iterator goes to that day, and by a search on
//! each day whose times may reach so far it finds the first of those. A day that lies before or
//! after costs nothing, as long as no day's times are counted from an earlier instant than those of
//! the day before; where one is, each day is looked at.
//!
//! It stands on `sched_types` for the timetable and on `order` for lists in order.
#![tactic(auto)]

mod between;
mod days;
mod flat;
mod gathering;
mod index;
mod reached;
mod search;
mod slot;
mod stand;
mod trip_departure;

pub use between::Between;
pub use index::StopIndex;
pub use slot::Slot;
pub use std::alloc::AllocError as NoMemory;
