//! What a client gets that follows a hub by `since`, over one connection after another.

ghost use Rattle.std.specs.Prelude.{◌≡◌, ◌<◌, length, OnOk};
ghost use Rattle.delta_defs.specs.OneHistory.{AreOfHistory};

use crate::followed::{ENTITY, hub, none, without_entities};
use delta_out::{Kept, NoMemory};
use http_serve::serve_since;
use hub_outside::{FixedClock, MemorySink, MemorySource};
use hub_state::ReplayHub;
use std::alloc::Global;
use std::test::Fail;

/// What is answered to a query that is no number.
const BAD_REQUEST: &[u8] =
    b"HTTP/1.1 400 Bad Request\r\nContent-Type: text/plain; charset=utf-8\r\nContent-Length: 12\r\nX-Hub-Sequence: 65\r\nX-Hub-Moment: 7\r\nConnection: keep-alive\r\n\r\nbad request\n";

/// How the head of a response with a feed begins.
const FEED_HEAD: &[u8] =
    b"HTTP/1.1 200 OK\r\nContent-Type: application/x-protobuf\r\nContent-Length: ";

/// Offers a message of the feed, of which the views that are kept know nothing.
fn take_in(hub: &mut ReplayHub, kept: &Kept, message: &[u8]) -> Result<(), Fail>
    requires feed { 0 < length hub.old.shown.plans.feeds }
    requires kept { AreOfHistory hub.old.shown.plans hub.old.history kept.now }
    ensures plans { hub.new.shown.plans ≡ hub.old.shown.plans }
    ensures kept { OnOk result (AreOfHistory hub.new.shown.plans hub.new.history kept.now) }
{
    hub.offer(0, message)?;
    Ok(())
}

/// What a client gets at the second 7 that asks for the feed of the city with this query.
fn answer(
    alloc: Global,
    hub: &mut ReplayHub,
    kept: &mut Kept,
    query: &[u8],
) -> Result<MemorySink, NoMemory>
    requires kept { AreOfHistory hub.old.shown.plans hub.old.history kept.old }
    ensures plans { hub.new.shown.plans ≡ hub.old.shown.plans }
    ensures kept { AreOfHistory hub.new.shown.plans hub.new.history kept.new }
{
    let mut request = b"GET /feed/city".to_vec(alloc)?;
    request.extend_from_slice(query)?;
    request.extend_from_slice(b" HTTP/1.1\r\n\r\n".as_slice())?;
    let mut source = MemorySource::new(request, Vec::new(alloc), Vec::new(alloc));
    let mut sink = MemorySink::new(alloc, Vec::new(alloc), Vec::new(alloc));
    let mut clock = FixedClock::new(vec![in alloc; 7]?);
    serve_since(alloc, &mut source, &mut sink, hub, &mut clock, kept);
    Ok(sink)
}

/// The response with this body, whose length is given in digits, of a hub that accepted so many
/// messages.
fn response(
    alloc: Global,
    length: &[u8],
    accepted: &[u8],
    body: &[u8],
) -> Result<Vec<u8>, NoMemory> {
    let mut bytes = FEED_HEAD.to_vec(alloc)?;
    bytes.extend_from_slice(length)?;
    bytes.extend_from_slice(b"\r\nX-Hub-Sequence: ".as_slice())?;
    bytes.extend_from_slice(accepted)?;
    bytes.extend_from_slice(b"\r\nX-Hub-Moment: 7\r\nConnection: keep-alive\r\n\r\n".as_slice())?;
    bytes.extend_from_slice(body)?;
    Ok(bytes)
}

#[test]
fn a_client_gets_what_changed(rt: HostRuntime) -> Result<(), Fail> {
    let alloc = rt.alloc();
    let mut hub = hub(alloc)?;
    let mut kept = none(alloc, &hub)?;
    let nothing = response(alloc, b"11", b"0", b"\x0a\x09\x0a\x032.0\x10\x01\x18\x00")?;
    assert!(rt; answer(alloc, &mut hub, &mut kept, b"?since=0")?.bytes() == nothing.as_slice());
    take_in(&mut hub, &kept, &ENTITY)?;
    let came = b"\x0a\x09\x0a\x032.0\x10\x01\x18\x05\x12\x05\x0a\x03a:x";
    let came = response(alloc, b"18", b"1", came)?;
    assert!(rt; answer(alloc, &mut hub, &mut kept, b"?since=0")?.bytes() == came.as_slice());
    let nothing = response(alloc, b"11", b"1", b"\x0a\x09\x0a\x032.0\x10\x01\x18\x05")?;
    assert!(rt; answer(alloc, &mut hub, &mut kept, b"?since=1")?.bytes() == nothing.as_slice());
    let whole = b"\x0a\x09\x0a\x032.0\x10\x00\x18\x05\x12\x05\x0a\x03a:x";
    let whole = response(alloc, b"18", b"1", whole)?;
    assert!(rt; answer(alloc, &mut hub, &mut kept, b"?since=7")?.bytes() == whole.as_slice());
    Ok(())
}

#[test]
fn a_client_that_is_64_looks_late_gets_all(rt: HostRuntime) -> Result<(), Fail> {
    let alloc = rt.alloc();
    let mut hub = hub(alloc)?;
    let mut kept = none(alloc, &hub)?;
    take_in(&mut hub, &kept, &ENTITY)?;
    answer(alloc, &mut hub, &mut kept, b"")?;
    for stamp in 6..70 {
        take_in(&mut hub, &kept, &without_entities(stamp))?;
        answer(alloc, &mut hub, &mut kept, b"")?;
    }
    let whole = b"\x0a\x09\x0a\x032.0\x10\x00\x18\x45\x12\x05\x0a\x03a:x";
    let whole = response(alloc, b"18", b"65", whole)?;
    assert!(rt; answer(alloc, &mut hub, &mut kept, b"?since=1")?.bytes() == whole.as_slice());
    let nothing = response(alloc, b"11", b"65", b"\x0a\x09\x0a\x032.0\x10\x01\x18\x45")?;
    assert!(rt; answer(alloc, &mut hub, &mut kept, b"?since=2")?.bytes() == nothing.as_slice());
    assert!(rt; answer(alloc, &mut hub, &mut kept, b"?since=x")?.bytes() == BAD_REQUEST);
    Ok(())
}
