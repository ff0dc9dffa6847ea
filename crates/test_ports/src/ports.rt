//! Ports, one ask after another, with ample memory.

use crate::given::{buffer, comes_to, copy, hands_in};
use feed_port::{MemoryPort, NoMemory, PortAnswer, SpoolPort, StreamPort};
use hub_outside::{MemoryFile, MemoryFiles, MemorySource};
use rt_types::Text;
use std::alloc::Global;
use std::test::Fail;

/// Whether a port of two messages, whose second ask fails, hands in both.
fn memory(alloc: Global) -> Result<bool, NoMemory> {
    let mut into = buffer(alloc)?;
    let messages = vec![in alloc; copy(alloc, b"one")?, copy(alloc, b"two")?]?;
    let mut port = MemoryPort::new(messages, vec![in alloc; 2]?);
    let first = hands_in(&mut port, &mut into, b"one");
    let failed = comes_to(&mut port, &mut into, PortAnswer::Failed);
    let second = hands_in(&mut port, &mut into, b"two");
    Ok(first && failed && second && comes_to(&mut port, &mut into, PortAnswer::End))
}

#[test]
fn a_failed_ask_leaves_the_message(rt: HostRuntime) -> Result<(), Fail> {
    assert!(rt; memory(rt.alloc())?);
    Ok(())
}

/// A stream of these bytes, which come one by one.
fn stream(alloc: Global, bytes: &[u8]) -> Result<StreamPort<MemorySource>, NoMemory> {
    let pieces = vec![in alloc; 1, 1, 1, 1, 1, 1, 1, 1, 1, 1]?;
    let source = MemorySource::new(copy(alloc, bytes)?, pieces, Vec::new(alloc));
    Ok(StreamPort::new(source))
}

/// Whether a stream hands in its two messages, however it is cut.
fn two_messages(alloc: Global) -> Result<bool, NoMemory> {
    let mut into = buffer(alloc)?;
    let mut port = stream(alloc, b"\0\0\0\x03one\0\0\0\0")?;
    let first = hands_in(&mut port, &mut into, b"one");
    let second = hands_in(&mut port, &mut into, b"");
    Ok(first && second && comes_to(&mut port, &mut into, PortAnswer::End))
}

/// Whether the first ask of a stream comes to that, and the next to its end.
fn ends_behind(alloc: Global, bytes: &[u8], answer: PortAnswer) -> Result<bool, NoMemory> {
    let mut into = buffer(alloc)?;
    let mut port = stream(alloc, bytes)?;
    let first = comes_to(&mut port, &mut into, answer);
    Ok(first && comes_to(&mut port, &mut into, PortAnswer::End))
}

#[test]
fn a_stream_is_cut_into_messages(rt: HostRuntime) -> Result<(), Fail> {
    let alloc = rt.alloc();
    assert!(rt; two_messages(alloc)?);
    assert!(rt; ends_behind(alloc, b"\x01\0\0\x01one", PortAnswer::TooLong(16_777_217))?);
    Ok(())
}

/// Four bytes of a length, and a message of that length.
const FRAMED: &[u8] = b"\0\0\0\x0b\x0a\x09\x0a\x032.0\x10\x00\x18\x05";

/// Whether a stream of these bytes in two pieces, the first of so many bytes, hands the message in.
fn is_whole(alloc: Global, first: u32) -> Result<bool, NoMemory> {
    let mut into = buffer(alloc)?;
    let pieces = vec![in alloc; first]?;
    let source = MemorySource::new(copy(alloc, FRAMED)?, pieces, Vec::new(alloc));
    let mut port = StreamPort::new(source);
    let message = hands_in(&mut port, &mut into, &FRAMED[4..]);
    Ok(message && comes_to(&mut port, &mut into, PortAnswer::End))
}

/// Wherever the bytes are cut into two pieces, and wherever they end within the message.
#[test]
fn a_stream_is_cut_at_each_byte(rt: HostRuntime) -> Result<(), Fail> {
    let alloc = rt.alloc();
    for at in 1..15_u32 {
        assert!(rt; is_whole(alloc, at)?, "in two pieces at {at}");
        let front = &FRAMED[..at as usize];
        assert!(rt;
            ends_behind(alloc, front, PortAnswer::Failed)?,
            "ended at {at}"
        );
    }
    Ok(())
}

/// A file of a spool.
fn file(alloc: Global, path: &str, bytes: &[u8]) -> Result<MemoryFile, NoMemory> {
    let mut same = String::new(alloc);
    same.push_str(path)?;
    Ok(MemoryFile {
        path: same,
        bytes: copy(alloc, bytes)?,
    })
}

/// Whether a spool of three files, of which the second can't be read at first and the fourth is
/// absent, hands in the three.
fn spool(alloc: Global) -> Result<bool, NoMemory> {
    let mut into = buffer(alloc)?;
    let files = vec![in alloc;
        file(alloc, "in/000003.pb", b"c")?,
        file(alloc, "in/000001.pb", b"a")?,
        file(alloc, "in/000002.pb", b"b")?,
        file(alloc, "in/000005.pb", b"e")?,
    ]?;
    let files = MemoryFiles::new(files, vec![in alloc; 2]?);
    let mut port = SpoolPort::new(alloc, files, Text::new(alloc, "in")?)?;
    let first = hands_in(&mut port, &mut into, b"a");
    let failed = comes_to(&mut port, &mut into, PortAnswer::Failed);
    let second = hands_in(&mut port, &mut into, b"b") && hands_in(&mut port, &mut into, b"c");
    Ok(first && failed && second && comes_to(&mut port, &mut into, PortAnswer::End))
}

#[test]
fn a_spool_is_read_by_its_numbers(rt: HostRuntime) -> Result<(), Fail> {
    assert!(rt; spool(rt.alloc())?);
    Ok(())
}
