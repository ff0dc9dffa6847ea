//! Which trip a message speaks of (GTFS Realtime 2.0, TripDescriptor).

use crate::NoMemory;
use crate::bytes::Bytes;
use crate::enums::TripRelation;
use copying::Copied;
use texts::ShortText as Text;

/// A TripDescriptor: which trip, and on which day.
#[derive(Drop)]
pub struct TripRef {
    /// Its trip_id in the timetable.
    pub trip_id: Option<Text>,
    /// When it starts, as `08:00:00`.
    pub start_time: Option<Text>,
    /// The day of its service, as `20250330`.
    pub start_date: Option<Text>,
    /// Absent means `Scheduled`.
    pub relation: Option<TripRelation>,
    /// Its route's route_id in the timetable.
    pub route_id: Option<Text>,
    /// Its direction_id in the timetable.
    pub direction_id: Option<u32>,
    /// The fields that this profile does not know, as they came.
    pub unknown: Bytes,
}

impl Copied for TripRef {
    fn copy(&self) -> Result<Self, NoMemory> {
        Ok(TripRef {
            trip_id: self.trip_id.copy()?,
            start_time: self.start_time.copy()?,
            start_date: self.start_date.copy()?,
            relation: self.relation,
            route_id: self.route_id.copy()?,
            direction_id: self.direction_id,
            unknown: self.unknown.copy()?,
        })
    }
}
