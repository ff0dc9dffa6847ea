//! Updates of trips (GTFS Realtime 2.0, TripUpdate).

use crate::NoMemory;
use crate::bytes::Bytes;
use crate::descriptor::TripRef;
use crate::enums::StopRelation;
use crate::items::Items;
use crate::vehicle::VehicleRef;
use copying::Copied;
use texts::ShortText as Text;

/// A TripUpdate: how far a trip is from its timetable.
#[derive(Drop)]
pub struct TripUpdate {
    /// Which trip it is about.
    pub trip: TripRef,
    /// By rising place of the trip.
    pub stop_time_update: StopUpdates,
    /// The vehicle that makes the trip.
    pub vehicle: Option<VehicleRef>,
    /// When the times were estimated, in seconds since 1970.
    pub timestamp: Option<u64>,
    /// Seconds behind the timetable, where the stops say nothing else; before it where negative.
    pub delay: Option<i32>,
    /// The fields that this profile does not know, as they came.
    pub unknown: Bytes,
}

/// A StopTimeUpdate: the times at one stop of a trip.
#[derive(Drop)]
pub struct StopUpdate {
    /// The place's stop_sequence in the timetable.
    pub stop_sequence: Option<u32>,
    /// When the vehicle arrives there.
    pub arrival: Option<Event>,
    /// When it departs from there.
    pub departure: Option<Event>,
    /// The stop's stop_id in the timetable.
    pub stop_id: Option<Text>,
    /// Absent means `Scheduled`.
    pub relation: Option<StopRelation>,
    /// What is changed about the stop.
    pub properties: Option<StopProps>,
    /// The fields that this profile does not know, as they came.
    pub unknown: Bytes,
}

/// The updates of a trip's stops, in their order.
pub type StopUpdates = Items<StopUpdate>;

/// A StopTimeEvent: an arrival or a departure.
#[derive(Drop)]
pub struct Event {
    /// Seconds behind the timetable; before it where negative.
    pub delay: Option<i32>,
    /// The time itself, in seconds since 1970.
    pub time: Option<i64>,
    /// The expected error, in seconds.
    pub uncertainty: Option<i32>,
    /// The fields that this profile does not know, as they came.
    pub unknown: Bytes,
}

/// StopTimeProperties: what is changed about one stop of a trip.
#[derive(Drop)]
pub struct StopProps {
    /// The stop at which the vehicle stops in place of the timetable's.
    pub assigned_stop_id: Option<Text>,
    /// The fields that this profile does not know, as they came.
    pub unknown: Bytes,
}

impl Copied for TripUpdate {
    fn copy(&self) -> Result<Self, NoMemory> {
        Ok(TripUpdate {
            trip: self.trip.copy()?,
            stop_time_update: self.stop_time_update.copy()?,
            vehicle: self.vehicle.copy()?,
            timestamp: self.timestamp,
            delay: self.delay,
            unknown: self.unknown.copy()?,
        })
    }
}

impl Copied for StopUpdate {
    fn copy(&self) -> Result<Self, NoMemory> {
        Ok(StopUpdate {
            stop_sequence: self.stop_sequence,
            arrival: self.arrival.copy()?,
            departure: self.departure.copy()?,
            stop_id: self.stop_id.copy()?,
            relation: self.relation,
            properties: self.properties.copy()?,
            unknown: self.unknown.copy()?,
        })
    }
}

impl Copied for Event {
    fn copy(&self) -> Result<Self, NoMemory> {
        Ok(Event {
            delay: self.delay,
            time: self.time,
            uncertainty: self.uncertainty,
            unknown: self.unknown.copy()?,
        })
    }
}

impl Copied for StopProps {
    fn copy(&self) -> Result<Self, NoMemory> {
        Ok(StopProps {
            assigned_stop_id: self.assigned_stop_id.copy()?,
            unknown: self.unknown.copy()?,
        })
    }
}
