//! Which trip a message speaks of, as its table lists its fields.

ghost use Rattle.feed_defs.specs.Table.{trip_descriptor};

use crate::NoMemory;
use crate::message::Message;
use field_read::{Fields, ReadFault, is_scalar, is_span, last, text};
use pb_wire::Part;
use rt_types::{Bytes, Kind, TripRef, TripRelation};
use std::alloc::Global;

impl Message for TripRef {
    ghost table = { trip_descriptor };

    fn kind() -> Kind {
        Kind::TripDescriptor
    }

    fn knows(part: &Part<'_>) -> bool {
        is_span(1, part)
            || (is_span(2, part)
                || (is_span(3, part)
                    || (is_scalar::<TripRelation>(4, part)
                        || (is_span(5, part) || is_scalar::<u32>(6, part)))))
    }

    fn blank(alloc: Global) -> Result<TripRef, NoMemory> {
        Ok(TripRef {
            trip_id: None,
            start_time: None,
            start_date: None,
            relation: None,
            route_id: None,
            direction_id: None,
            unknown: Bytes::from_vec(Vec::new(alloc)),
        })
    }

    fn fill(
        &mut self,
        alloc: Global,
        fields: &Fields<'_, '_>,
        unknown: Bytes,
    ) -> Result<(), ReadFault> {
        self.trip_id = text(alloc, Kind::TripDescriptor, 1, fields)?;
        self.start_time = text(alloc, Kind::TripDescriptor, 2, fields)?;
        self.start_date = text(alloc, Kind::TripDescriptor, 3, fields)?;
        self.relation = last(4, fields);
        self.route_id = text(alloc, Kind::TripDescriptor, 5, fields)?;
        self.direction_id = last(6, fields);
        self.unknown = unknown;
        Ok(())
    }
}
