//! Messages and faults from outside: bytes written by hand after the encoding guide of Protocol
//! Buffers.

use feed_read::{NoMemory, ReadFault, read_message};
use pb_wire::write_field;
use rt_types::{FeedMessage, Incrementality, Kind, What};
use std::alloc::Global;
use std::test::Fail;

/// A header with the version 2.0, FULL_DATASET and the stamp 5, as a field of a message.
const HEADER: &[u8] = &[0x0a, 9, 0x0a, 3, 0x32, 0x2e, 0x30, 0x10, 0, 0x18, 5];

/// The way to a message from outside to inside: the number of each field on it, and what stands
/// before that field.
type Path = &'static [(u32, &'static [u8])];

const TRIP_UPDATE: Path = &[(2, HEADER), (3, b"\x0a\x01a")];

const TRIP: Path = &[(2, HEADER), (3, b"\x0a\x01a"), (1, b"")];

const EVENT: Path = &[(2, HEADER), (3, b"\x0a\x01a"), (2, b"\x0a\x00"), (2, b"")];

const VEHICLE: Path = &[(2, HEADER), (4, b"\x0a\x01a")];

const POSITION: Path = &[(2, HEADER), (4, b"\x0a\x01a"), (2, b"")];

const ALERT: Path = &[(2, HEADER), (5, b"\x0a\x01a")];

const SELECTOR: Path = &[(2, HEADER), (5, b"\x0a\x01a"), (5, b"")];

const TRANSLATED: Path = &[(2, HEADER), (5, b"\x0a\x01a"), (10, b"")];

const TRANSLATION: Path = &[(2, HEADER), (5, b"\x0a\x01a"), (10, b""), (1, b"")];

/// The bytes of a whole message in which these stand at the end of that way.
fn at_end(alloc: Global, path: Path, bytes: &[u8]) -> Result<Vec<u8>, NoMemory> {
    let mut inner = bytes.to_vec(alloc)?;
    for (number, before) in path.iter().rev() {
        let mut outer = before.to_vec(alloc)?;
        write_field((*number).clamp(1, 15), inner.as_slice(), &mut outer)?;
        inner = outer;
    }
    Ok(inner)
}

/// What bytes are refused for: entity, what, kind and field.
type Fault = (u32, What, Kind, u32);

/// The fault of the bytes of a whole message.
fn fault_of(alloc: Global, bytes: &[u8]) -> Option<Fault> {
    match read_message(alloc, bytes) {
        Err(
            ReadFault::Malformed {
                entity,
                what,
                kind,
                field,
            },
        ) => Some((entity, what, kind, field)),
        _ => None,
    }
}

/// The fault of the bytes of one message, in the first entity.
fn fault_in(alloc: Global, path: Path, bytes: &[u8]) -> Result<Option<Fault>, NoMemory> {
    let whole = at_end(alloc, path, bytes)?;
    Ok(fault_of(alloc, whole.as_slice()))
}

#[test]
fn reads_a_header(rt: HostRuntime) -> Result<(), Fail> {
    let message = read_message(
        rt.alloc(),
        &[0x0a, 9, 0x0a, 3, 0x32, 0x2e, 0x30, 0x10, 0, 0x18, 5],
    )?;
    assert_eq!(rt; message.header.version.as_str(), "2.0");
    assert_eq!(rt;
        message.header.incrementality,
        Some(Incrementality::FullDataset)
    );
    assert_eq!(rt; message.header.timestamp, Some(5));
    assert_eq!(rt; message.header.unknown.as_slice().len(), 0);
    assert_eq!(rt; message.entity.as_slice().len(), 0);
    Ok(())
}

#[test]
fn merges_headers(rt: HostRuntime) -> Result<(), Fail> {
    let message = read_message(
        rt.alloc(),
        &[0x0a, 5, 0x0a, 3, 0x32, 0x2e, 0x30, 0x0a, 2, 0x18, 5],
    )?;
    assert_eq!(rt; message.header.version.as_str(), "2.0");
    assert_eq!(rt; message.header.incrementality, None);
    assert_eq!(rt; message.header.timestamp, Some(5));
    Ok(())
}

/// The version's first occurrence isn't UTF-8, but its last one is; the enum's number names no
/// value.
#[test]
fn keeps_what_it_does_not_know(rt: HostRuntime) -> Result<(), Fail> {
    let message = read_message(
        rt.alloc(),
        &[
            0x0a, 10, 0x0a, 1, 0xff, 0x0a, 3, 0x32, 0x2e, 0x30, 0x10, 2, 0x12, 10, 0x18, 1, 0x0a,
            1, 0x61, 0x10, 1, 0x32, 1, 7, 0x0d, 1, 2, 3, 4,
        ],
    )?;
    assert_eq!(rt; message.header.version.as_str(), "2.0");
    assert_eq!(rt; message.header.incrementality, None);
    assert_eq!(rt; message.header.unknown.as_slice(), [0x10, 2].as_slice());
    assert_eq!(rt; message.unknown.as_slice(), [0x0d, 1, 2, 3, 4].as_slice());
    let entities = message.entity.as_slice();
    assert_eq!(rt; entities.len(), 1);
    assert_eq!(rt; entities[0].id.as_str(), "a");
    assert_eq!(rt; entities[0].is_deleted, Some(true));
    assert_eq!(rt;
        entities[0].unknown.as_slice(),
        [0x18, 1, 0x32, 1, 7].as_slice()
    );
    Ok(())
}

/// The delay of the first arrival of the first entity.
fn first_delay(message: &FeedMessage) -> Option<i32> {
    let entity = message.entity.as_slice().first()?;
    let update = entity.trip_update.as_ref()?.get();
    let stop = update.stop_time_update.as_slice().first()?;
    stop.arrival.as_ref()?.delay
}

/// A negative number is written in ten bytes, but its low 32 bits alone count.
#[test]
fn reads_negative_numbers(rt: HostRuntime) -> Result<(), Fail> {
    let alloc = rt.alloc();
    let ten: &[u8] = &[8, 0xc4, 0xff, 0xff, 0xff, 0xff, 0xff, 0xff, 0xff, 0xff, 1];
    let five: &[u8] = &[8, 0xc4, 0xff, 0xff, 0xff, 0x0f];
    for bytes in [ten, five] {
        let message = read_message(alloc, at_end(alloc, EVENT, bytes)?.as_slice())?;
        assert_eq!(rt; first_delay(&message), Some(-60));
    }
    Ok(())
}

#[test]
fn tells_faults_of_the_wire(rt: HostRuntime) -> Result<(), Fail> {
    let cases: [(&[u8], What); 11] = [
        // A varint without its last byte, a run past the end, four bytes of which one is missing, a
        // group without its end, and one that is cut inside.
        (&[8], What::Cut),
        (&[0x22, 2, 0x61], What::Cut),
        (&[0x25, 1, 2, 3], What::Cut),
        (&[0x4b], What::Cut),
        (&[0x4b, 8], What::Cut),
        // The number 0, the wire type 6, and a tag of 2^32.
        (&[0, 1], What::Tag),
        (&[0x0e], What::Tag),
        (&[0x80, 0x80, 0x80, 0x80, 0x10], What::Tag),
        // Ten bytes with the high bit, the end of a group that isn't open, and of another than is
        // open.
        (&[0xff; 10], What::Varint),
        (&[0x4c], What::Group),
        (&[0x4b, 0x54], What::Group),
    ];
    for (bytes, what) in cases.iter() {
        assert_eq!(rt;
            fault_in(rt.alloc(), EVENT, bytes)?,
            Some((1, *what, Kind::StopTimeEvent, 0))
        );
    }
    Ok(())
}

/// Before all else of a message come the wire faults of all its payloads.
#[test]
fn tells_wire_faults_first(rt: HostRuntime) -> Result<(), Fail> {
    let cases: [(&[u8], What, Kind); 3] = [
        (
            &[0x0a, 3, 0x0a, 1, 0xff, 0x12, 1, 7, 0x0a, 1, 7],
            What::Tag,
            Kind::TripDescriptor,
        ),
        (&[0x12, 1, 7, 8], What::Cut, Kind::TripUpdate),
        (&[0x0a, 1, 7, 0x4b], What::Cut, Kind::TripUpdate),
    ];
    for (bytes, what, kind) in cases.iter() {
        assert_eq!(rt;
            fault_in(rt.alloc(), TRIP_UPDATE, bytes)?,
            Some((1, *what, *kind, 0))
        );
    }
    Ok(())
}

/// The fields are judged by rising number, wherever they stand; of a text its last occurrence
/// alone.
#[test]
fn tells_texts_by_number(rt: HostRuntime) -> Result<(), Fail> {
    let cases: [(Path, &[u8], Option<(Kind, u32)>); 4] = [
        (
            TRIP,
            &[0x1a, 1, 0xff, 0x12, 1, 0xff, 0x0a, 1, 0x61],
            Some((Kind::TripDescriptor, 2)),
        ),
        (TRIP, &[0x0a, 1, 0xff, 0x0a, 1, 0x61], None),
        (
            SELECTOR,
            &[0x2a, 1, 0xff, 0x22, 3, 0x0a, 1, 0xff],
            Some((Kind::TripDescriptor, 1)),
        ),
        (
            VEHICLE,
            &[0x42, 3, 0x1a, 1, 0xff],
            Some((Kind::VehicleDescriptor, 3)),
        ),
    ];
    for (path, bytes, place) in cases.iter() {
        let wanted = match place {
            Some((kind, field)) => Some((1, What::NotText, *kind, *field)),
            None => None,
        };
        assert_eq!(rt; fault_in(rt.alloc(), path, bytes)?, wanted);
    }
    Ok(())
}

/// What is missing in a message, or wrong where something is missing too.
const MISSING_LAST: [(Path, &[u8], What, Kind, u32); 7] = [
    (POSITION, &[], What::Missing, Kind::Position, 1),
    (
        POSITION,
        &[0x0d, 0, 0, 0, 0, 0x10, 1],
        What::Missing,
        Kind::Position,
        2,
    ),
    (
        TRANSLATION,
        &[0x12, 1, 0xff],
        What::NotText,
        Kind::Translation,
        2,
    ),
    (TRANSLATED, &[0x0a, 0], What::Missing, Kind::Translation, 1),
    (
        ALERT,
        &[0x5a, 2, 0x0a, 0],
        What::Missing,
        Kind::Translation,
        1,
    ),
    (
        TRIP_UPDATE,
        &[0x1a, 3, 0x0a, 1, 0xff],
        What::NotText,
        Kind::VehicleDescriptor,
        1,
    ),
    (TRIP_UPDATE, &[0x20, 1], What::Missing, Kind::TripUpdate, 1),
];

/// What is missing is told last, by rising number.
#[test]
fn tells_missing_fields_last(rt: HostRuntime) -> Result<(), Fail> {
    for (path, bytes, what, kind, field) in MISSING_LAST.iter() {
        assert_eq!(rt;
            fault_in(rt.alloc(), path, bytes)?,
            Some((1, *what, *kind, *field))
        );
    }
    Ok(())
}

/// A header that is missing comes after the entities' faults. A field 2 that is a number is no
/// entity.
#[test]
fn tells_faults_of_entities(rt: HostRuntime) {
    let cases: [(&[u8], Fault); 4] = [
        (
            &[0x12, 3, 0x0a, 1, 0x61, 0x12, 0],
            (2, What::Missing, Kind::FeedEntity, 1),
        ),
        (
            &[0x10, 1, 0x12, 2, 0x18, 1],
            (1, What::Missing, Kind::FeedEntity, 1),
        ),
        (
            &[0x12, 3, 0x0a, 1, 0xff],
            (1, What::NotText, Kind::FeedEntity, 1),
        ),
        (
            &[0x12, 3, 0x0a, 1, 0x61, 0x12, 6, 0x22, 4, 0x12, 2, 0x08, 1],
            (2, What::Missing, Kind::Position, 1),
        ),
    ];
    for (bytes, fault) in cases.iter() {
        assert_eq!(rt; fault_of(rt.alloc(), bytes), Some(*fault));
    }
}

#[test]
fn reads_repeated_messages(rt: HostRuntime) -> Result<(), Fail> {
    let mut bytes = HEADER.to_vec(rt.alloc())?;
    bytes.extend_from_slice(&[0x12, 3, 0x0a, 1, 0x61, 0x12, 3, 0x0a, 1, 0x62])?;
    let entities = read_message(rt.alloc(), bytes.as_slice())?
        .entity
        .into_vec();
    assert_eq!(rt; entities.len(), 2);
    assert_eq!(rt; entities[0].id.as_str(), "a");
    assert_eq!(rt; entities[1].id.as_str(), "b");
    Ok(())
}
