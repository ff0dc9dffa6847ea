//! Positions of vehicles (GTFS Realtime 2.0, VehiclePosition).

use crate::NoMemory;
use crate::bytes::Bytes;
use crate::descriptor::TripRef;
use crate::enums::StopStatus;
use copying::Copied;
use texts::ShortText as Text;

/// A VehiclePosition: where a vehicle is.
#[derive(Drop)]
pub struct Vehicle {
    /// The trip that it makes.
    pub trip: Option<TripRef>,
    /// Where it is.
    pub position: Option<Position>,
    /// The stop_sequence of the stop that it is at or heads for.
    pub current_stop_sequence: Option<u32>,
    /// How it stands to that stop; absent means `InTransitTo`.
    pub current_status: Option<StopStatus>,
    /// When the position was taken, in seconds since 1970.
    pub timestamp: Option<u64>,
    /// The stop that it is at or heads for.
    pub stop_id: Option<Text>,
    /// Which vehicle it is.
    pub vehicle: Option<VehicleRef>,
    /// The fields that this profile does not know, as they came.
    pub unknown: Bytes,
}

/// A Position: a point of the WGS 84 system.
#[derive(Drop)]
pub struct Position {
    /// Degrees north of the equator, south where negative.
    pub latitude: Degrees,
    /// Degrees east of Greenwich, west where negative.
    pub longitude: Degrees,
    /// The fields that this profile does not know, as they came.
    pub unknown: Bytes,
}

/// A VehicleDescriptor: which vehicle it is.
#[derive(Drop)]
pub struct VehicleRef {
    /// Its id within the agency's system.
    pub id: Option<Text>,
    /// What passengers see on it.
    pub label: Option<Text>,
    /// Its license plate.
    pub license_plate: Option<Text>,
    /// The fields that this profile does not know, as they came.
    pub unknown: Bytes,
}

/// Degrees of the WGS 84 system, north or east where positive: the bits of a 32-bit float (IEEE
/// 754), which are carried as they came and never computed with.
#[derive(Clone, Copy, PartialEq, Eq, Debug)]
pub struct Degrees {
    /// The four bytes of the float as a number, the lowest byte first.
    pub bits: u32,
}

impl Copied for Vehicle {
    fn copy(&self) -> Result<Self, NoMemory> {
        Ok(Vehicle {
            trip: self.trip.copy()?,
            position: self.position.copy()?,
            current_stop_sequence: self.current_stop_sequence,
            current_status: self.current_status,
            timestamp: self.timestamp,
            stop_id: self.stop_id.copy()?,
            vehicle: self.vehicle.copy()?,
            unknown: self.unknown.copy()?,
        })
    }
}

impl Copied for Position {
    fn copy(&self) -> Result<Self, NoMemory> {
        Ok(Position {
            latitude: self.latitude,
            longitude: self.longitude,
            unknown: self.unknown.copy()?,
        })
    }
}

impl Copied for VehicleRef {
    fn copy(&self) -> Result<Self, NoMemory> {
        Ok(VehicleRef {
            id: self.id.copy()?,
            label: self.label.copy()?,
            license_plate: self.license_plate.copy()?,
            unknown: self.unknown.copy()?,
        })
    }
}
