//! The small city of the samples, for tests: a market square with two platforms, a harbour and a
//! hill, and one bus route with three trips on 29 to 31 March 2025.
//!
//! [`city`] is its timetable, which contracts know as the example of `sched_types`; [`one_feed`],
//! [`two_feeds`] and [`four_feeds`] are a hub's timetables and feeds with it. There are messages in
//! their own form and as bytes, and ports, doors and clocks in memory.
#![tactic(auto)]

mod messages;
mod outside;
mod plan;
mod schedules;
mod views;

pub use messages::{ASK, FIVE, MOMENT, MOVED, SERVED, UPDATE, dataset_of, full_dataset, no_bytes};
pub use outside::{city_doors, city_ports, clock, door, link, number_at, port, sink};
pub use plan::{city, place, routes, stop, stops, trip, trips};
pub use schedules::{feed, four_feeds, named_city, one_feed, two_feeds};
pub use std::alloc::AllocError as NoMemory;
pub use views::last_stamp;
