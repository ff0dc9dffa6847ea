//! Fields with their places, faults, groups and writing, each with bytes from outside.

use pb_wire::{
    Field, NoMemory, PartPayload, Payload, WireFault, field_at, read_fields, write_field,
    write_length, write_long_length, write_scalar, write_varint,
};
use std::process::Abort;
use std::test::Fail;

fn field(rt: &(impl Abort + AllocGlobal), bytes: &[u8]) -> Field {
    let fields = read_fields(rt.alloc(), bytes)
        .ok()
        .expect(rt, "the bytes are fields");
    assert_eq!(rt; fields.len(), 1);
    fields.first().copied().expect(rt, "one field")
}

fn expect_field(rt: &(impl Abort + AllocGlobal), bytes: &[u8], number: u32, payload: Payload) {
    let end = bytes.len();
    let start = 0;
    assert_eq!(rt;
        field(rt, bytes),
        Field {
            number,
            payload,
            start,
            end
        }
    );
}

#[test]
fn places(rt: HostRuntime) {
    expect_field(&rt, &[0x08, 0x96, 0x01], 1, Payload::Varint(150));
    expect_field(&rt, b"\x12\x07testing", 2, Payload::Span(2, 9));
    expect_field(
        &rt,
        &[0x1d, 0x01, 0x02, 0x03, 0x04],
        3,
        Payload::Four(0x0403_0201),
    );
    expect_field(
        &rt,
        &[0x11, 1, 0, 0, 0, 0, 0, 0, 0x80],
        2,
        Payload::Eight(0x8000_0000_0000_0001),
    );
    let long_tag = [
        0x88, 0x80, 0x80, 0x80, 0x80, 0x80, 0x80, 0x80, 0x80, 0x00, 0x05,
    ];
    expect_field(&rt, &long_tag, 1, Payload::Varint(5));
    let largest = [
        0x08, 0xff, 0xff, 0xff, 0xff, 0xff, 0xff, 0xff, 0xff, 0xff, 0x7f,
    ];
    expect_field(&rt, &largest, 1, Payload::Varint(u64::MAX));
}

fn expect_fault(rt: &(impl Abort + AllocGlobal), bytes: &[u8], fault: WireFault) {
    assert_eq!(rt; read_fields(rt.alloc(), bytes).err(), Some(fault));
    assert_eq!(rt; field_at(bytes).err(), Some(fault));
}

#[test]
fn faults(rt: HostRuntime) {
    let eleven: &[u8] = &[
        0x08, 0x80, 0x80, 0x80, 0x80, 0x80, 0x80, 0x80, 0x80, 0x80, 0x80, 0x00,
    ];
    let cases: [(&[u8], WireFault); 15] = [
        (&[0x00, 0x01], WireFault::Tag),
        (&[0x04], WireFault::Tag),
        (&[0x0e], WireFault::Tag),
        (&[0x0f], WireFault::Tag),
        (&[0x80, 0x80, 0x80, 0x80, 0x10, 0x01], WireFault::Tag),
        (&[0x12, 0x07, 0x74], WireFault::Cut),
        (&[0x08, 0x96], WireFault::Cut),
        (&[0x1d, 0x01, 0x02, 0x03], WireFault::Cut),
        (eleven, WireFault::Varint),
        (&[0x4c], WireFault::Group),
        (&[0x4b, 0x54], WireFault::Group),
        (&[0x4b], WireFault::Cut),
        (&[0x4b, 0x08], WireFault::Cut),
        (&[0x4b, 0x04], WireFault::Tag),
        (&[0x4b, 0x53, 0x4c, 0x54], WireFault::Group),
    ];
    for (bytes, fault) in cases {
        expect_fault(&rt, bytes, fault);
    }
}

#[test]
fn groups(rt: HostRuntime) -> Result<(), Fail> {
    let each_type: &[u8] = &[
        0x4b, 0x08, 0x05, 0x11, 1, 0, 0, 0, 0, 0, 0, 0, 0x12, 0x01, 0x4c, 0x1b, 0x1c, 0x25, 1, 0,
        0, 0, 0x4c,
    ];
    expect_field(&rt, each_type, 9, Payload::Group);
    let between = &[0x08, 0x05, 0x4b, 0x53, 0x54, 0x4c, 0x10, 0x06];
    let fields = read_fields(rt.alloc(), between)?;
    let places = [(1, 0, 2), (9, 2, 6), (2, 6, 8)];
    assert_eq!(&rt; fields.len(), places.len());
    for (field, (number, start, end)) in fields.iter().zip(places) {
        assert_eq!(&rt;
            (field.number, field.start, field.end),
            (number, start, end)
        );
    }
    Ok(())
}

#[test]
fn nested(rt: HostRuntime) {
    let mut bytes = [0x4bu8; 130];
    bytes[64..128].fill(0x4c);
    expect_field(&rt, &bytes[..128], 9, Payload::Group);
    bytes[64] = 0x4b;
    bytes[65..].fill(0x4c);
    expect_fault(&rt, &bytes, WireFault::Group);
}

#[test]
fn fields_are_taken_off_the_front(rt: HostRuntime) -> Result<(), Fail> {
    let (text, rest) = field_at(b"\x12\x02hi\x4b\x4c\x08\x96\x01")?;
    assert_eq!(&rt; text.number, 2);
    assert_eq!(&rt; text.raw, b"\x12\x02hi".as_slice());
    assert!(&rt; matches!(text.payload, PartPayload::Span(b"hi")));
    let (group, rest) = field_at(rest)?;
    assert_eq!(&rt; group.number, 9);
    assert_eq!(&rt; group.raw, b"\x4b\x4c".as_slice());
    assert!(&rt; matches!(group.payload, PartPayload::Group));
    let (number, rest) = field_at(rest)?;
    assert_eq!(&rt; number.number, 1);
    assert!(&rt; matches!(number.payload, PartPayload::Varint(150)));
    assert!(&rt; rest.is_empty());
    assert_eq!(&rt; field_at(rest).err(), Some(WireFault::Cut));
    Ok(())
}

#[test]
fn varints(rt: HostRuntime) -> Result<(), Fail> {
    let cases: [(u64, &[u8]); 5] = [
        (0, &[0x00]),
        (127, &[0x7f]),
        (128, &[0x80, 0x01]),
        (300, &[0xac, 0x02]),
        (
            u64::MAX,
            &[0xff, 0xff, 0xff, 0xff, 0xff, 0xff, 0xff, 0xff, 0xff, 0x01],
        ),
    ];
    for (value, bytes) in cases {
        let mut out = Vec::new(rt.alloc());
        write_varint(value, &mut out)?;
        assert_eq!(&rt; out.as_slice(), bytes);
    }
    Ok(())
}

/// A byte, so many that are kept for a length, and a run of so many bytes.
fn run_behind(rt: &impl AllocGlobal, kept: u8, count: u16) -> Result<Vec<u8>, NoMemory> {
    let mut out = Vec::new(rt.alloc());
    out.push(7)?;
    let behind = 1 + usize::from(kept);
    out.resize(behind, 0)?;
    out.resize(behind + usize::from(count), 9)?;
    Ok(out)
}

/// Whether this length stands behind the first byte of such a run.
fn says(out: &[u8], length: &[u8]) -> bool {
    match out.strip_prefix(&[7]) {
        Some(rest) => rest.starts_with(length),
        None => false,
    }
}

/// Whether a run of so many bytes behind one that is kept gets this length.
fn has_length(rt: &impl AllocGlobal, count: u16, length: &[u8]) -> Result<bool, NoMemory> {
    let mut out = run_behind(rt, 1, count)?;
    if out.len() < 2 {
        return Ok(false);
    }
    write_length(1, &mut out)?;
    Ok(says(out.as_slice(), length))
}

/// The same behind two bytes that are kept.
fn has_long_length(rt: &impl AllocGlobal, count: u16, length: &[u8]) -> Result<bool, NoMemory> {
    let mut out = run_behind(rt, 2, count)?;
    if out.len() < 3 {
        return Ok(false);
    }
    write_long_length(1, &mut out)?;
    Ok(says(out.as_slice(), length))
}

#[test]
fn lengths(rt: HostRuntime) -> Result<(), Fail> {
    assert!(&rt; has_length(&rt, 0, &[0x00])?);
    assert!(&rt; has_length(&rt, 127, &[0x7f, 9])?);
    assert!(&rt; has_length(&rt, 300, &[0xac, 0x02, 9])?);
    assert!(&rt; has_length(&rt, 20_000, &[0xa0, 0x9c, 0x01, 9])?);
    Ok(())
}

#[test]
fn long_lengths(rt: HostRuntime) -> Result<(), Fail> {
    assert!(&rt; has_long_length(&rt, 127, &[0x7f, 9])?);
    assert!(&rt; has_long_length(&rt, 128, &[0x80, 0x01, 9])?);
    assert!(&rt; has_long_length(&rt, 16_383, &[0xff, 0x7f, 9])?);
    assert!(&rt; has_long_length(&rt, 16_384, &[0x80, 0x80, 0x01, 9])?);
    Ok(())
}

#[test]
fn written(rt: HostRuntime) -> Result<(), Fail> {
    let mut out = Vec::new(rt.alloc());
    write_scalar(1, 150, &mut out)?;
    write_field(2, b"testing", &mut out)?;
    assert_eq!(&rt; out.as_slice(), b"\x08\x96\x01\x12\x07testing".as_slice());
    Ok(())
}
