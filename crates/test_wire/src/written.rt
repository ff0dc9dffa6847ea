//! Bytes of whole messages, and ids under a prefix, with ample memory.

use feed_write::{NoMemory, rename, write_message, write_under_feed};
use rt_types::{
    Alert, Bytes, Cause, Degrees, Effect, Entities, Entity, Event, FeedMessage, Header,
    Incrementality, Period, Periods, Position, Selector, Selectors, Shared, StopProps,
    StopRelation, StopStatus, StopUpdate, StopUpdates, Text, Translated, Translation, Translations,
    TripRef, TripRelation, TripUpdate, Vehicle, VehicleRef,
};
use std::alloc::Global;
use std::test::Fail;

fn none(alloc: Global) -> Bytes {
    Bytes::from_vec(Vec::new(alloc))
}

fn id(alloc: Global, text: &str) -> Result<Option<Text>, NoMemory> {
    Ok(Some(Text::new(alloc, text)?))
}

fn trip(alloc: Global, trip_id: &str) -> Result<TripRef, NoMemory> {
    Ok(TripRef {
        trip_id: id(alloc, trip_id)?,
        start_time: None,
        start_date: id(alloc, "20250330")?,
        relation: Some(TripRelation::Canceled),
        route_id: id(alloc, "R7")?,
        direction_id: Some(1),
        unknown: none(alloc),
    })
}

fn stop(alloc: Global) -> Result<StopUpdate, NoMemory> {
    Ok(StopUpdate {
        stop_sequence: Some(4_000_000_000),
        arrival: Some(Event {
            delay: Some(-60),
            time: None,
            uncertainty: None,
            unknown: none(alloc),
        }),
        departure: Some(Event {
            delay: None,
            time: Some(-1),
            uncertainty: Some(30),
            unknown: none(alloc),
        }),
        stop_id: id(alloc, "S3")?,
        relation: Some(StopRelation::Skipped),
        properties: Some(StopProps {
            assigned_stop_id: id(alloc, "S4")?,
            unknown: none(alloc),
        }),
        unknown: none(alloc),
    })
}

fn trip_update(alloc: Global) -> Result<TripUpdate, NoMemory> {
    let mut stops = Vec::new(alloc);
    stops.push(stop(alloc)?)?;
    Ok(TripUpdate {
        trip: trip(alloc, "T1")?,
        stop_time_update: StopUpdates::new(stops),
        vehicle: Some(VehicleRef {
            id: id(alloc, "bus")?,
            label: None,
            license_plate: id(alloc, "HU B")?,
            unknown: none(alloc),
        }),
        timestamp: Some(7),
        delay: Some(-8),
        unknown: none(alloc),
    })
}

fn vehicle(alloc: Global) -> Result<Vehicle, NoMemory> {
    Ok(Vehicle {
        trip: Some(TripRef {
            trip_id: id(alloc, "T2")?,
            start_time: None,
            start_date: None,
            relation: None,
            route_id: None,
            direction_id: None,
            unknown: none(alloc),
        }),
        position: Some(Position {
            latitude: Degrees { bits: 0x4248_0000 },
            longitude: Degrees { bits: 0xc248_0000 },
            unknown: none(alloc),
        }),
        current_stop_sequence: Some(3),
        current_status: Some(StopStatus::InTransitTo),
        timestamp: Some(9),
        stop_id: id(alloc, "S2")?,
        vehicle: Some(VehicleRef {
            id: None,
            label: id(alloc, "42")?,
            license_plate: None,
            unknown: none(alloc),
        }),
        unknown: none(alloc),
    })
}

fn selector(alloc: Global) -> Result<Selector, NoMemory> {
    Ok(Selector {
        agency_id: id(alloc, "A")?,
        route_id: id(alloc, "")?,
        route_type: Some(-3),
        trip: Some(TripRef {
            trip_id: None,
            start_time: None,
            start_date: None,
            relation: None,
            route_id: id(alloc, "R7")?,
            direction_id: None,
            unknown: none(alloc),
        }),
        stop_id: id(alloc, "S1")?,
        direction_id: Some(0),
        unknown: none(alloc),
    })
}

fn alert(alloc: Global) -> Result<Alert, NoMemory> {
    let mut periods = Vec::new(alloc);
    periods.push(Period {
        start: Some(10),
        end: Some(20),
        unknown: none(alloc),
    })?;
    periods.push(Period {
        start: None,
        end: None,
        unknown: none(alloc),
    })?;
    let mut selectors = Vec::new(alloc);
    selectors.push(selector(alloc)?)?;
    let mut translations = Vec::new(alloc);
    translations.push(Translation {
        text: Text::new(alloc, "Lift out")?,
        language: id(alloc, "en")?,
        unknown: none(alloc),
    })?;
    Ok(Alert {
        active_period: Periods::new(periods),
        informed_entity: Selectors::new(selectors),
        cause: Some(Cause::Weather),
        effect: Some(Effect::NoEffect),
        header_text: Some(Translated {
            translation: Translations::new(translations),
            unknown: none(alloc),
        }),
        description_text: Some(Translated {
            translation: Translations::new(Vec::new(alloc)),
            unknown: none(alloc),
        }),
        unknown: none(alloc),
    })
}

fn entity(alloc: Global) -> Result<Entity, NoMemory> {
    Ok(Entity {
        id: Text::new(alloc, "x")?,
        is_deleted: None,
        trip_update: Some(Shared::new(alloc, trip_update(alloc)?)?),
        vehicle: Some(Shared::new(alloc, vehicle(alloc)?)?),
        alert: Some(Shared::new(alloc, alert(alloc)?)?),
        unknown: Bytes::new(alloc, b"\x4a\x02hi")?,
    })
}

fn message(alloc: Global) -> Result<FeedMessage, NoMemory> {
    let mut entities = Vec::new(alloc);
    entities.push(entity(alloc)?)?;
    Ok(FeedMessage {
        header: Header {
            version: Text::new(alloc, "2.0")?,
            incrementality: Some(Incrementality::FullDataset),
            timestamp: Some(5),
            unknown: none(alloc),
        },
        entity: Entities::new(entities),
        unknown: Bytes::new(alloc, b"\x1a\x00")?,
    })
}

/// What any encoder of Protocol Buffers makes of that message.
const BYTES: &[u8] =
    b"\x0a\x09\x0a\x032.0\x10\x00\x18\x05\x12\xcf\x01\x0a\x01x\x1ab\x0a\x16\x0a\x02T1\x1a\x0820250330 \x03*\x02R70\x01\x12.\x08\x80\xd0\xac\xf3\x0e\x12\x0b\x08\xc4\xff\xff\xff\xff\xff\xff\xff\xff\x01\x1a\x0d\x10\xff\xff\xff\xff\xff\xff\xff\xff\xff\x01\x18\x1e\x22\x02S3(\x012\x04\x0a\x02S4\x1a\x0b\x0a\x03bus\x1a\x04HU B \x07(\xf8\xff\xff\xff\xff\xff\xff\xff\xff\x01\x22\x22\x0a\x04\x0a\x02T2\x12\x0a\x0d\x00\x00HB\x15\x00\x00H\xc2\x18\x03 \x02(\x09:\x02S2B\x04\x12\x0242*>\x0a\x04\x08\x0a\x10\x14\x0a\x00*\x1c\x0a\x01A\x12\x00\x18\xfd\xff\xff\xff\xff\xff\xff\xff\xff\x01\x22\x04*\x02R7*\x02S10\x000\x088\x0aR\x10\x0a\x0e\x0a\x08Lift out\x12\x02enZ\x00J\x02hi\x1a\x00";

#[test]
fn a_message_is_appended_field_by_field(rt: HostRuntime) -> Result<(), Fail> {
    let alloc = rt.alloc();
    let mut out = vec![in alloc; 7u8]?;
    write_message(&message(alloc)?, &mut out)?;
    assert_eq!(rt;
        out.as_slice().strip_prefix(b"\x07".as_slice()),
        Some(BYTES)
    );
    Ok(())
}

/// What any encoder makes of its entity as a field, under the feed `f` and with `x-` before the ids
/// of the timetable.
const ENTITY: &[u8] =
    b"\x12\xe3\x01\x0a\x03f:x\x1aj\x0a\x1a\x0a\x04x-T1\x1a\x0820250330 \x03*\x04x-R70\x01\x122\x08\x80\xd0\xac\xf3\x0e\x12\x0b\x08\xc4\xff\xff\xff\xff\xff\xff\xff\xff\x01\x1a\x0d\x10\xff\xff\xff\xff\xff\xff\xff\xff\xff\x01\x18\x1e\x22\x04x-S3(\x012\x06\x0a\x04x-S4\x1a\x0b\x0a\x03bus\x1a\x04HU B \x07(\xf8\xff\xff\xff\xff\xff\xff\xff\xff\x01\x22&\x0a\x06\x0a\x04x-T2\x12\x0a\x0d\x00\x00HB\x15\x00\x00H\xc2\x18\x03 \x02(\x09:\x04x-S2B\x04\x12\x0242*D\x0a\x04\x08\x0a\x10\x14\x0a\x00*\x22\x0a\x03x-A\x12\x00\x18\xfd\xff\xff\xff\xff\xff\xff\xff\xff\x01\x22\x06*\x04x-R7*\x04x-S10\x000\x088\x0aR\x10\x0a\x0e\x0a\x08Lift out\x12\x02enZ\x00J\x02hi";

#[test]
fn an_entity_is_appended_under_its_feed(rt: HostRuntime) -> Result<(), Fail> {
    let alloc = rt.alloc();
    let mut out = vec![in alloc; 7u8]?;
    write_under_feed("f", "x-", &entity(alloc)?, &mut out)?;
    assert_eq!(rt;
        out.as_slice().strip_prefix(b"\x07".as_slice()),
        Some(ENTITY)
    );
    Ok(())
}

fn trip_id(entity: &Entity) -> Option<&str> {
    Some(
        entity
            .trip_update
            .as_ref()?
            .get()
            .trip
            .trip_id
            .as_ref()?
            .as_str(),
    )
}

fn assigned_stop(entity: &Entity) -> Option<&str> {
    let update = entity.trip_update.as_ref()?.get();
    let stop = update.stop_time_update.as_slice().first()?;
    Some(
        stop.properties
            .as_ref()?
            .assigned_stop_id
            .as_ref()?
            .as_str(),
    )
}

fn selected_route(entity: &Entity) -> Option<&str> {
    let selector = entity
        .alert
        .as_ref()?
        .get()
        .informed_entity
        .as_slice()
        .first()?;
    Some(selector.route_id.as_ref()?.as_str())
}

fn route_of_selected_trip(entity: &Entity) -> Option<&str> {
    let selector = entity
        .alert
        .as_ref()?
        .get()
        .informed_entity
        .as_slice()
        .first()?;
    Some(selector.trip.as_ref()?.route_id.as_ref()?.as_str())
}

#[test]
fn ids_stand_behind_the_prefix(rt: HostRuntime) -> Result<(), Fail> {
    let renamed = rename(rt.alloc(), "x-", entity(rt.alloc())?)?;
    assert_eq!(rt; renamed.id.as_str(), "x");
    assert_eq!(rt; trip_id(&renamed), Some("x-T1"));
    assert_eq!(rt; assigned_stop(&renamed), Some("x-S4"));
    assert_eq!(rt; selected_route(&renamed), Some(""));
    assert_eq!(rt; route_of_selected_trip(&renamed), Some("x-R7"));
    Ok(())
}
