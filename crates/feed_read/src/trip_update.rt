//! Updates of trips, as their tables list their fields.

ghost use Rattle.std.specs.Prelude.{◌≡◌, [], ◌∷◌, IfSome};
ghost use Rattle.feed_defs.specs.Rows.{merged_message, occurrences_of, span_in, value};
ghost use Rattle.feed_defs.specs.Table.{trip_update, stop_time_update, stop_time_event, stop_time_properties};
ghost use Rattle.answer_defs.specs.Defined.{AsDefined};
ghost use Rattle.field_read.specs.Causes.{cause_of};

use crate::NoMemory;
use crate::message::{Message, needed};
use crate::nested::{all, embedded};
use field_read::{Fields, Occurs, ReadFault, is_scalar, is_span, last, said_at, text};
use pb_wire::{Part, field_at};
use rt_types::{
    Bytes, Event, Items, Kind, StopProps, StopRelation, StopUpdate, TripRef, TripUpdate,
};
use std::alloc::Global;

impl Message for TripUpdate {
    ghost table = { trip_update };

    fn kind() -> Kind {
        Kind::TripUpdate
    }

    fn knows(part: &Part<'_>) -> bool {
        is_span(1, part)
            || (is_span(2, part)
                || (is_span(3, part) || (is_scalar::<u64>(4, part) || is_scalar::<i32>(5, part))))
    }

    fn blank(alloc: Global) -> Result<TripUpdate, NoMemory> {
        Ok(TripUpdate {
            trip: TripRef::blank(alloc)?,
            stop_time_update: Items::new(Vec::new(alloc)),
            vehicle: None,
            timestamp: None,
            delay: None,
            unknown: Bytes::from_vec(Vec::new(alloc)),
        })
    }

    fn fill(
        &mut self,
        alloc: Global,
        fields: &Fields<'_, '_>,
        unknown: Bytes,
    ) -> Result<(), ReadFault> {
        let mut trip = None;
        embedded(alloc, 1, fields, &mut trip)?;
        self.stop_time_update = all(alloc, 2, fields)?;
        embedded(alloc, 3, fields, &mut self.vehicle)?;
        self.timestamp = last(4, fields);
        self.delay = last(5, fields);
        self.trip = needed(Kind::TripUpdate, 1, trip)?;
        self.unknown = unknown;
        Ok(())
    }
}

impl Message for StopUpdate {
    ghost table = { stop_time_update };

    fn kind() -> Kind {
        Kind::StopTimeUpdate
    }

    fn knows(part: &Part<'_>) -> bool {
        is_scalar::<u32>(1, part)
            || (is_span(2, part)
                || (is_span(3, part)
                    || (is_span(4, part)
                        || (is_scalar::<StopRelation>(5, part) || is_span(6, part)))))
    }

    fn blank(alloc: Global) -> Result<StopUpdate, NoMemory> {
        Ok(StopUpdate {
            stop_sequence: None,
            arrival: None,
            departure: None,
            stop_id: None,
            relation: None,
            properties: None,
            unknown: Bytes::from_vec(Vec::new(alloc)),
        })
    }

    fn fill(
        &mut self,
        alloc: Global,
        fields: &Fields<'_, '_>,
        unknown: Bytes,
    ) -> Result<(), ReadFault> {
        self.stop_sequence = last(1, fields);
        event(alloc, 2, fields, &mut self.arrival)?;
        event(alloc, 3, fields, &mut self.departure)?;
        self.stop_id = text(alloc, Kind::StopTimeUpdate, 4, fields)?;
        self.relation = last(5, fields);
        embedded(alloc, 6, fields, &mut self.properties)?;
        self.unknown = unknown;
        Ok(())
    }
}

impl Message for Event {
    ghost table = { stop_time_event };

    fn kind() -> Kind {
        Kind::StopTimeEvent
    }

    fn knows(part: &Part<'_>) -> bool {
        is_scalar::<i32>(1, part) || (is_scalar::<i64>(2, part) || is_scalar::<i32>(3, part))
    }

    fn blank(alloc: Global) -> Result<Event, NoMemory> {
        Ok(Event {
            delay: None,
            time: None,
            uncertainty: None,
            unknown: Bytes::from_vec(Vec::new(alloc)),
        })
    }

    fn fill(
        &mut self,
        _alloc: Global,
        fields: &Fields<'_, '_>,
        unknown: Bytes,
    ) -> Result<(), ReadFault> {
        self.delay = last(1, fields);
        self.time = last(2, fields);
        self.uncertainty = last(3, fields);
        self.unknown = unknown;
        Ok(())
    }
}

impl Message for StopProps {
    ghost table = { stop_time_properties };

    fn kind() -> Kind {
        Kind::StopTimeProperties
    }

    fn knows(part: &Part<'_>) -> bool {
        is_span(1, part)
    }

    fn blank(alloc: Global) -> Result<StopProps, NoMemory> {
        Ok(StopProps {
            assigned_stop_id: None,
            unknown: Bytes::from_vec(Vec::new(alloc)),
        })
    }

    fn fill(
        &mut self,
        alloc: Global,
        fields: &Fields<'_, '_>,
        unknown: Bytes,
    ) -> Result<(), ReadFault> {
        self.assigned_stop_id = text(alloc, Kind::StopTimeProperties, 1, fields)?;
        self.unknown = unknown;
        Ok(())
    }
}

/// Sets the place to the event under this number, made of all its occurrences together.
///
/// Most messages of a feed are events of three numbers, so one that occurs once is read by a way of
/// its own.
fn event(
    alloc: Global,
    number: u32,
    fields: &Fields<'_, '_>,
    place: &mut Option<Event>,
) -> Result<(), ReadFault>
    ensures { AsDefined (λ _. place.new) cause_of
        (merged_message stop_time_event (occurrences_of span_in number fields.now)) result }
{
    if let Occurs::Once(bytes) = fields.span(number)
        && let Some(event) = plain_event(alloc, bytes)
    {
        *place = Some(event);
        return Ok(());
    }
    embedded(alloc, number, fields, place)
}

/// The event of these bytes, if they are fields that an event knows.
#[inline(always)]
fn plain_event(alloc: Global, bytes: &[u8]) -> Option<Event>
    ensures { IfSome result (λ event. value stop_time_event (bytes.now ∷ []) ≡ Ok event) }
{
    let mut delay = None;
    let mut time = None;
    let mut uncertainty = None;
    let mut rest = bytes;
    'fields: while !rest.is_empty() {
        let Ok((part, after)) = field_at(rest) else {
            return None;
        };
        if !Event::knows(&part) {
            return None;
        }
        delay = said_at(1, &part).or(delay);
        time = said_at(2, &part).or(time);
        uncertainty = said_at(3, &part).or(uncertainty);
        rest = after;
    }
    Some(Event {
        delay,
        time,
        uncertainty,
        unknown: Bytes::from_vec(Vec::new(alloc)),
    })
}
