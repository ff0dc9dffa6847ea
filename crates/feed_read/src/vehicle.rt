//! Positions of vehicles, as their tables list their fields.

ghost use Rattle.feed_defs.specs.Table.{vehicle_position, position, vehicle_descriptor};

use crate::NoMemory;
use crate::message::{Message, needed};
use crate::nested::embedded;
use field_read::{Fields, ReadFault, is_scalar, is_span, last, text};
use pb_wire::Part;
use rt_types::{Bytes, Degrees, Kind, Position, StopStatus, Vehicle, VehicleRef};
use std::alloc::Global;

impl Message for Vehicle {
    ghost table = { vehicle_position };

    fn kind() -> Kind {
        Kind::VehiclePosition
    }

    fn knows(part: &Part<'_>) -> bool {
        is_span(1, part)
            || (is_span(2, part)
                || (is_scalar::<u32>(3, part)
                    || (is_scalar::<StopStatus>(4, part)
                        || (is_scalar::<u64>(5, part) || (is_span(7, part) || is_span(8, part))))))
    }

    fn blank(alloc: Global) -> Result<Vehicle, NoMemory> {
        Ok(Vehicle {
            trip: None,
            position: None,
            current_stop_sequence: None,
            current_status: None,
            timestamp: None,
            stop_id: None,
            vehicle: None,
            unknown: Bytes::from_vec(Vec::new(alloc)),
        })
    }

    fn fill(
        &mut self,
        alloc: Global,
        fields: &Fields<'_, '_>,
        unknown: Bytes,
    ) -> Result<(), ReadFault> {
        embedded(alloc, 1, fields, &mut self.trip)?;
        embedded(alloc, 2, fields, &mut self.position)?;
        self.current_stop_sequence = last(3, fields);
        self.current_status = last(4, fields);
        self.timestamp = last(5, fields);
        self.stop_id = text(alloc, Kind::VehiclePosition, 7, fields)?;
        embedded(alloc, 8, fields, &mut self.vehicle)?;
        self.unknown = unknown;
        Ok(())
    }
}

impl Message for Position {
    ghost table = { position };

    fn kind() -> Kind {
        Kind::Position
    }

    fn knows(part: &Part<'_>) -> bool {
        is_scalar::<Degrees>(1, part) || is_scalar::<Degrees>(2, part)
    }

    fn blank(alloc: Global) -> Result<Position, NoMemory> {
        Ok(Position {
            latitude: Degrees { bits: 0 },
            longitude: Degrees { bits: 0 },
            unknown: Bytes::from_vec(Vec::new(alloc)),
        })
    }

    fn fill(
        &mut self,
        _alloc: Global,
        fields: &Fields<'_, '_>,
        unknown: Bytes,
    ) -> Result<(), ReadFault> {
        self.latitude = needed(Kind::Position, 1, last(1, fields))?;
        self.longitude = needed(Kind::Position, 2, last(2, fields))?;
        self.unknown = unknown;
        Ok(())
    }
}

impl Message for VehicleRef {
    ghost table = { vehicle_descriptor };

    fn kind() -> Kind {
        Kind::VehicleDescriptor
    }

    fn knows(part: &Part<'_>) -> bool {
        is_span(1, part) || (is_span(2, part) || is_span(3, part))
    }

    fn blank(alloc: Global) -> Result<VehicleRef, NoMemory> {
        Ok(VehicleRef {
            id: None,
            label: None,
            license_plate: None,
            unknown: Bytes::from_vec(Vec::new(alloc)),
        })
    }

    fn fill(
        &mut self,
        alloc: Global,
        fields: &Fields<'_, '_>,
        unknown: Bytes,
    ) -> Result<(), ReadFault> {
        self.id = text(alloc, Kind::VehicleDescriptor, 1, fields)?;
        self.label = text(alloc, Kind::VehicleDescriptor, 2, fields)?;
        self.license_plate = text(alloc, Kind::VehicleDescriptor, 3, fields)?;
        self.unknown = unknown;
        Ok(())
    }
}
