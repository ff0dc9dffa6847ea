//! What a timetable is loaded by, beside its files.

use rt_types::Text;

/// How a timetable is loaded: the zone of its times, and the window of days for which it is kept.
#[derive(Debug, Drop)]
pub struct PlanConf {
    /// A rule of the POSIX variable TZ, as `CET-1CEST,M3.5.0,M10.5.0/3`.
    pub zone: Text,
    /// The date of the window's first day, as the number of eight digits YYYYMMDD.
    pub first: u32,
    /// How many days the window has.
    pub days: u32,
}
