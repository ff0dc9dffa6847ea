//! Values and their copies, with ample memory.

use rt_types::{
    Alert, Bytes, Cause, Copied, Degrees, Effect, Entities, Entity, Event, FeedMessage, Header,
    Incrementality, NoMemory, Period, Periods, Position, Selector, Selectors, Shared, StopProps,
    StopRelation, StopStatus, StopUpdate, StopUpdates, Text, Translated, Translation, Translations,
    TripRef, TripRelation, TripUpdate, Vehicle, VehicleRef,
};
use std::alloc::Global;
use std::test::Fail;

fn trip(alloc: Global) -> Result<TripRef, NoMemory> {
    Ok(TripRef {
        trip_id: Some(Text::new(alloc, "T1")?),
        start_time: Some(Text::new(alloc, "08:00:00")?),
        start_date: Some(Text::new(alloc, "20250330")?),
        relation: Some(TripRelation::Canceled),
        route_id: Some(Text::new(alloc, "R7")?),
        direction_id: Some(1),
        unknown: Bytes::new(alloc, b"trip")?,
    })
}

fn bus(alloc: Global) -> Result<VehicleRef, NoMemory> {
    Ok(VehicleRef {
        id: Some(Text::new(alloc, "bus")?),
        label: None,
        license_plate: Some(Text::new(alloc, "a plate longer than what stands in place")?),
        unknown: Bytes::from_vec(Vec::new(alloc)),
    })
}

fn event(alloc: Global, delay: i32) -> Result<Event, NoMemory> {
    Ok(Event {
        delay: Some(delay),
        time: Some(-1),
        uncertainty: None,
        unknown: Bytes::new(alloc, b"")?,
    })
}

fn trip_update(alloc: Global) -> Result<TripUpdate, NoMemory> {
    let mut stops = Vec::new(alloc);
    stops.push(StopUpdate {
        stop_sequence: Some(4_000_000_000),
        arrival: Some(event(alloc, -60)?),
        departure: Some(event(alloc, 60)?),
        stop_id: Some(Text::new(alloc, "S3")?),
        relation: Some(StopRelation::Skipped),
        properties: Some(StopProps {
            assigned_stop_id: Some(Text::new(alloc, "S4")?),
            unknown: Bytes::new(alloc, b"")?,
        }),
        unknown: Bytes::new(alloc, b"")?,
    })?;
    Ok(TripUpdate {
        trip: trip(alloc)?,
        stop_time_update: StopUpdates::new(stops),
        vehicle: Some(bus(alloc)?),
        timestamp: Some(7),
        delay: Some(-8),
        unknown: Bytes::new(alloc, b"")?,
    })
}

fn vehicle(alloc: Global) -> Result<Vehicle, NoMemory> {
    Ok(Vehicle {
        trip: Some(trip(alloc)?),
        position: Some(Position {
            latitude: Degrees { bits: 1 },
            longitude: Degrees { bits: 2 },
            unknown: Bytes::new(alloc, b"")?,
        }),
        current_stop_sequence: Some(3),
        current_status: Some(StopStatus::InTransitTo),
        timestamp: Some(9),
        stop_id: Some(Text::new(alloc, "S2")?),
        vehicle: Some(bus(alloc)?),
        unknown: Bytes::new(alloc, b"")?,
    })
}

fn alert(alloc: Global) -> Result<Alert, NoMemory> {
    let mut periods = Vec::new(alloc);
    periods.push(Period {
        start: None,
        end: Some(10),
        unknown: Bytes::new(alloc, b"")?,
    })?;
    let mut selectors = Vec::new(alloc);
    selectors.push(Selector {
        agency_id: Some(Text::new(alloc, "A")?),
        route_id: None,
        route_type: Some(-3),
        trip: Some(trip(alloc)?),
        stop_id: None,
        direction_id: Some(0),
        unknown: Bytes::new(alloc, b"")?,
    })?;
    let mut translations = Vec::new(alloc);
    translations.push(Translation {
        text: Text::new(alloc, "Lift out")?,
        language: Some(Text::new(alloc, "en")?),
        unknown: Bytes::new(alloc, b"")?,
    })?;
    Ok(Alert {
        active_period: Periods::new(periods),
        informed_entity: Selectors::new(selectors),
        cause: Some(Cause::Weather),
        effect: Some(Effect::NoEffect),
        header_text: Some(Translated {
            translation: Translations::new(translations),
            unknown: Bytes::new(alloc, b"")?,
        }),
        description_text: None,
        unknown: Bytes::new(alloc, b"")?,
    })
}

fn message(alloc: Global) -> Result<FeedMessage, NoMemory> {
    let mut entities = Vec::new(alloc);
    entities.push(Entity {
        id: Text::new(alloc, "x")?,
        is_deleted: Some(false),
        trip_update: Some(Shared::new(alloc, trip_update(alloc)?)?),
        vehicle: Some(Shared::new(alloc, vehicle(alloc)?)?),
        alert: Some(Shared::new(alloc, alert(alloc)?)?),
        unknown: Bytes::new(alloc, b"hi")?,
    })?;
    Ok(FeedMessage {
        header: Header {
            version: Text::new(alloc, "2.0")?,
            incrementality: Some(Incrementality::Differential),
            timestamp: Some(5),
            unknown: Bytes::new(alloc, b"")?,
        },
        entity: Entities::new(entities),
        unknown: Bytes::new(alloc, b"end")?,
    })
}

#[test]
fn a_copy_is_equal_to_its_source(rt: HostRuntime) -> Result<(), Fail> {
    let copy = message(rt.alloc())?.copy()?;
    assert_eq!(rt; copy.header.version.as_str(), "2.0");
    assert_eq!(rt; copy.header.timestamp, Some(5));
    assert_eq!(rt; copy.unknown.as_slice(), b"end".as_slice());
    assert_eq!(rt; first_delay(&copy), Some(60));
    assert!(rt; has_header(&copy, "Lift out"));
    Ok(())
}

/// The delay of the first departure of the first entity.
fn first_delay(message: &FeedMessage) -> Option<i32> {
    let update = message
        .entity
        .as_slice()
        .first()?
        .trip_update
        .as_ref()?
        .get();
    let stop = update.stop_time_update.as_slice().first()?;
    stop.departure.as_ref()?.delay
}

/// Whether the first entity's alert has that header.
fn has_header(message: &FeedMessage, text: &str) -> bool {
    match first_header(message) {
        Some(header) => header == text,
        None => false,
    }
}

fn first_header(message: &FeedMessage) -> Option<&str> {
    let alert = message.entity.as_slice().first()?.alert.as_ref()?.get();
    let header = alert.header_text.as_ref()?;
    Some(header.translation.as_slice().first()?.text.as_str())
}

#[test]
fn a_shared_value_comes_out_again(rt: HostRuntime) -> Result<(), Fail> {
    let shared = Shared::new(rt.alloc(), event(rt.alloc(), 7)?)?;
    let other = shared.copy()?;
    assert_eq!(rt; other.get().delay, Some(7));
    // It is copied while it has two owners, and then handed out.
    assert_eq!(rt; other.into_inner()?.delay, Some(7));
    assert_eq!(rt; shared.into_inner()?.delay, Some(7));
    Ok(())
}
