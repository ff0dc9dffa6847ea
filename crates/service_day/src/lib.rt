//! Service days: on which days a service of a timetable runs, and the instant from which the times
//! of such a day are counted in the agency's time zone.
//!
//! It promises to the layer above that `active` and `base` are functions that its contracts name
//! (`specs/Service.antt` and `specs/Zone.antt`): the words of GTFS Schedule over the Gregorian
//! calendar and the rules of the POSIX variable TZ.
//!
//! It stands on the crate `jiff`, which reads a time zone's rule and finds the instant of a local
//! time, and on the calendar of `texts` and `text_defs`.
#![tactic(auto)]

mod services;
mod zones;

pub use services::{Exception, active};
pub use zones::{NoMemory, Zone, ZoneFault, base, read_zone};
