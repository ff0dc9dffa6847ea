//! A message with every field that the profile knows. Its bytes were made by protoc from a text.

use feed_read::read_message;
use rt_types::{
    Alert, Cause, Degrees, Effect, Entity, Event, Incrementality, Selector, StopRelation,
    StopStatus, StopUpdate, Text, Translation, TripRelation, TripUpdate, Vehicle, VehicleRef,
};
use std::test::Fail;

const EVERY_FIELD: &[u8] = &[
    0x0a, 0x0d, 0x0a, 3, 0x32, 0x2e, 0x30, 0x10, 1, 0x18, 0xe0, 0xda, 0xa1, 0xbf, 6, 0x12, 0x9b, 1,
    0x0a, 2, 0x65, 0x31, 0x10, 0, 0x1a, 0x92, 1, 0x0a, 0x20, 0x0a, 2, 0x54, 0x31, 0x12, 8, 0x30,
    0x38, 0x3a, 0x30, 0x30, 0x3a, 0x30, 0x30, 0x1a, 8, 0x32, 0x30, 0x32, 0x35, 0x30, 0x33, 0x33,
    0x30, 0x20, 5, 0x2a, 2, 0x52, 0x31, 0x30, 1, 0x12, 0x42, 8, 0xff, 0xff, 0xff, 0xff, 0x0f, 0x12,
    0x13, 8, 0xc4, 0xff, 0xff, 0xff, 0xff, 0xff, 0xff, 0xff, 0xff, 1, 0x10, 0x9c, 0xdb, 0xa1, 0xbf,
    6, 0x18, 0x1e, 0x1a, 0x18, 8, 0x78, 0x10, 0xff, 0xff, 0xff, 0xff, 0xff, 0xff, 0xff, 0xff, 0xff,
    1, 0x18, 0x80, 0x80, 0x80, 0x80, 0xf8, 0xff, 0xff, 0xff, 0xff, 1, 0x22, 2, 0x53, 0x31, 0x28, 3,
    0x32, 5, 0x0a, 3, 0x53, 0x31, 0x62, 0x12, 2, 8, 2, 0x1a, 0x15, 0x0a, 2, 0x56, 0x31, 0x12, 9,
    0x37, 0x20, 0x48, 0x61, 0x72, 0x62, 0x6f, 0x75, 0x72, 0x1a, 4, 0x5a, 0x48, 0x20, 0x31, 0x20,
    0xdf, 0xda, 0xa1, 0xbf, 6, 0x28, 0xc4, 0xff, 0xff, 0xff, 0xff, 0xff, 0xff, 0xff, 0xff, 1, 0x12,
    0x30, 0x0a, 2, 0x65, 0x32, 0x22, 0x2a, 0x0a, 4, 0x0a, 2, 0x54, 0x32, 0x12, 0x0a, 0x0d, 0, 0,
    0x3e, 0x42, 0x15, 0, 0, 4, 0xc1, 0x18, 3, 0x20, 2, 0x28, 0xff, 0xff, 0xff, 0xff, 0xff, 0xff,
    0xff, 0xff, 0xff, 1, 0x3a, 2, 0x53, 0x32, 0x42, 3, 0x12, 1, 0x39, 0x12, 0x65, 0x0a, 2, 0x65,
    0x33, 0x2a, 0x5f, 0x0a, 0x0c, 8, 0xe0, 0xda, 0xa1, 0xbf, 6, 0x10, 0xe0, 0xbb, 0xa3, 0xbf, 6,
    0x2a, 0x1e, 0x0a, 1, 0x41, 0x12, 2, 0x52, 0x32, 0x18, 0xfd, 0xff, 0xff, 0xff, 0xff, 0xff, 0xff,
    0xff, 0xff, 1, 0x22, 4, 0x0a, 2, 0x54, 0x33, 0x2a, 2, 0x53, 0x33, 0x30, 0, 0x30, 0x0c, 0x38,
    0x0b, 0x52, 0x0e, 0x0a, 0x0c, 0x0a, 6, 0x41, 0x75, 0x66, 0x7a, 0x75, 0x67, 0x12, 2, 0x64, 0x65,
    0x5a, 0x1b, 0x0a, 6, 0x0a, 4, 0x4c, 0x69, 0x66, 0x74, 0x0a, 0x11, 0x0a, 0x0b, 0xc3, 0xa9, 0x6c,
    0xc3, 0xa9, 0x76, 0x61, 0x74, 0x65, 0x75, 0x72, 0x12, 2, 0x66, 0x72,
];

fn is(text: &Option<Text>, wanted: &str) -> bool {
    match text {
        Some(text) => text.as_str() == wanted,
        None => false,
    }
}

fn is_event(event: &Option<Event>, delay: i32, time: i64, uncertainty: i32) -> bool {
    match event {
        Some(event) => {
            event.delay == Some(delay)
                && event.time == Some(time)
                && event.uncertainty == Some(uncertainty)
        }
        None => false,
    }
}

fn is_first_stop(stop: &StopUpdate) -> bool {
    let Some(properties) = &stop.properties else {
        return false;
    };
    stop.stop_sequence == Some(4294967295)
        && is_event(&stop.arrival, -60, 1743285660, 30)
        && is_event(&stop.departure, 120, -1, -2147483648)
        && is(&stop.stop_id, "S1")
        && stop.relation == Some(StopRelation::Unscheduled)
        && is(&properties.assigned_stop_id, "S1b")
}

fn is_second_stop(stop: &StopUpdate) -> bool {
    stop.stop_sequence == Some(2)
        && stop.arrival.is_none()
        && stop.departure.is_none()
        && stop.stop_id.is_none()
        && stop.relation.is_none()
        && stop.properties.is_none()
}

fn is_bus(vehicle: &Option<VehicleRef>) -> bool {
    match vehicle {
        Some(vehicle) => {
            is(&vehicle.id, "V1")
                && is(&vehicle.label, "7 Harbour")
                && is(&vehicle.license_plate, "ZH 1")
        }
        None => false,
    }
}

fn is_the_update(update: &TripUpdate) -> bool {
    let trip = &update.trip;
    let [first, second] = update.stop_time_update.as_slice() else {
        return false;
    };
    is(&trip.trip_id, "T1")
        && is(&trip.start_time, "08:00:00")
        && is(&trip.start_date, "20250330")
        && trip.relation == Some(TripRelation::Replacement)
        && is(&trip.route_id, "R1")
        && trip.direction_id == Some(1)
        && is_first_stop(first)
        && is_second_stop(second)
        && is_bus(&update.vehicle)
        && update.timestamp == Some(1743285599)
        && update.delay == Some(-60)
}

fn is_the_vehicle(vehicle: &Vehicle) -> bool {
    let Some(trip) = &vehicle.trip else {
        return false;
    };
    let Some(position) = &vehicle.position else {
        return false;
    };
    let Some(named) = &vehicle.vehicle else {
        return false;
    };
    // 47.5 and -8.25.
    is(&trip.trip_id, "T2")
        && position.latitude == Degrees { bits: 0x423e0000 }
        && position.longitude == Degrees { bits: 0xc1040000 }
        && vehicle.current_stop_sequence == Some(3)
        && vehicle.current_status == Some(StopStatus::InTransitTo)
        && vehicle.timestamp == Some(18446744073709551615)
        && is(&vehicle.stop_id, "S2")
        && named.id.is_none()
        && is(&named.label, "9")
}

fn is_the_selector(selector: &Selector) -> bool {
    let Some(trip) = &selector.trip else {
        return false;
    };
    is(&selector.agency_id, "A")
        && is(&selector.route_id, "R2")
        && selector.route_type == Some(-3)
        && is(&trip.trip_id, "T3")
        && is(&selector.stop_id, "S3")
        && selector.direction_id == Some(0)
}

fn says(translation: &Translation, text: &str) -> bool {
    translation.text.as_str() == text
}

fn is_the_alert(alert: &Alert) -> bool {
    let [period] = alert.active_period.as_slice() else {
        return false;
    };
    let [selector] = alert.informed_entity.as_slice() else {
        return false;
    };
    period.start == Some(1743285600)
        && period.end == Some(1743314400)
        && is_the_selector(selector)
        && alert.cause == Some(Cause::MedicalEmergency)
        && alert.effect == Some(Effect::AccessibilityIssue)
        && has_the_texts(alert)
}

fn has_the_texts(alert: &Alert) -> bool {
    let Some(header) = &alert.header_text else {
        return false;
    };
    let Some(description) = &alert.description_text else {
        return false;
    };
    let [said] = header.translation.as_slice() else {
        return false;
    };
    let [first, second] = description.translation.as_slice() else {
        return false;
    };
    says(said, "Aufzug")
        && is(&said.language, "de")
        && says(first, "Lift")
        && first.language.is_none()
        && says(second, "élévateur")
        && is(&second.language, "fr")
}

fn has_the_update(entity: &Entity) -> bool {
    match &entity.trip_update {
        Some(update) => is_the_update(update.get()),
        None => false,
    }
}

fn has_the_vehicle(entity: &Entity) -> bool {
    match &entity.vehicle {
        Some(vehicle) => is_the_vehicle(vehicle.get()),
        None => false,
    }
}

fn has_the_alert(entity: &Entity) -> bool {
    match &entity.alert {
        Some(alert) => is_the_alert(alert.get()),
        None => false,
    }
}

#[test]
fn reads_every_field(rt: HostRuntime) -> Result<(), Fail> {
    let message = read_message(rt.alloc(), EVERY_FIELD)?;
    assert_eq!(rt;
        message.header.incrementality,
        Some(Incrementality::Differential)
    );
    assert_eq!(rt; message.header.timestamp, Some(1743285600));
    let entities = message.entity.as_slice();
    assert_eq!(rt; entities.len(), 3);
    assert_eq!(rt; entities[0].is_deleted, Some(false));
    assert!(rt; has_the_update(&entities[0]));
    assert!(rt; has_the_vehicle(&entities[1]));
    assert!(rt; has_the_alert(&entities[2]));
    Ok(())
}
