//! Messages of some thousand entities, which several threads read.

ghost use Rattle.std.specs.Prelude.{◌<◌};

use feed_write::write_message;
use hub_core::{NoMemory, Refusal, check_on};
use rt_types::{Kind, What};
use std::alloc::Global;
use std::test::Fail;

/// More entities than one thread is given.
const MANY: usize = 3_000;

/// Version 2.0, FULL_DATASET, stamp 5.
const HEADER: &[u8] = b"\x0a\x09\x0a\x032.0\x10\x00\x18\x05";

/// The digit of a number that stands for so many.
fn digit(number: usize, unit: usize) -> u8
    requires { 0 < unit }
{
    b'0' + (number / unit % 10) as u8
}

/// The bytes of a message of many entities, each with its number. The first of them have it as
/// their id, and the others in a field that is no text, so that they have none.
fn message(alloc: Global, with_ids: usize) -> Result<Vec<u8>, NoMemory> {
    let mut bytes = Vec::new(alloc);
    bytes.extend_from_slice(HEADER)?;
    for number in 0..MANY {
        let tag = if number < with_ids { 0x0a } else { 0x12 };
        bytes.extend_from_slice(&[0x12, 6, tag, 4])?;
        bytes.extend_from_slice(&[
            digit(number, 1000),
            digit(number, 100),
            digit(number, 10),
            digit(number, 1),
        ])?;
    }
    Ok(bytes)
}

#[test]
fn many_entities_are_read_in_their_order(rt: HostRuntime) -> Result<(), Fail> {
    let alloc = rt.alloc();
    let bytes = message(alloc, MANY)?;
    let mut written = Vec::new(alloc);
    if let Ok(message) = check_on(&rt, alloc, 4, bytes.as_slice()) {
        write_message(&message, &mut written)?;
    }
    assert!(rt; written.as_slice() == bytes.as_slice());
    Ok(())
}

#[test]
fn the_first_fault_of_many_is_told(rt: HostRuntime) -> Result<(), Fail> {
    let alloc = rt.alloc();
    let bytes = message(alloc, 1_999)?;
    let told = check_on(&rt, alloc, 4, bytes.as_slice());
    assert!(rt;
        matches!(
            told,
            Err(Refusal::Malformed {
                entity: 2_000,
                what: What::Missing,
                kind: Kind::FeedEntity,
                field: 1,
            },)
        )
    );
    Ok(())
}
