//! A reader that keeps the views of a hub with one feed, byte by byte.

ghost use Rattle.std.specs.Prelude.{◌≡◌, ◌<◌, length, IfOk, OnOk};
ghost use Rattle.delta_defs.specs.OneHistory.{AreOfHistory};

use board_parts::Oracle;
use delta_out::{Kept, NoMemory, since};
use hub_state::ReplayHub;
use sample_city::one_feed;
use std::alloc::Global;
use std::test::Fail;

/// A whole data set of the entity `x`, with stamp 5.
pub(crate) const ENTITY: [u8; 16] = *b"\x0a\x09\x0a\x032.0\x10\x00\x18\x05\x12\x03\x0a\x01x";

/// The same with stamp 6.
const AGAIN: [u8; 16] = *b"\x0a\x09\x0a\x032.0\x10\x00\x18\x06\x12\x03\x0a\x01x";

/// A message without entities that changes nothing, with that stamp, which is below 128.
pub(crate) fn without_entities(stamp: u8) -> [u8; 11] {
    [
        0x0a, 0x09, 0x0a, 0x03, b'2', b'.', b'0', 0x10, 0x01, 0x18, stamp,
    ]
}

/// A hub that accepted nothing, with the feed `a`.
pub(crate) fn hub(alloc: Global) -> Result<ReplayHub, Fail>
    ensures plans { IfOk result (λ hub. length hub.shown.plans.plans ≡ 1) }
    ensures feeds { IfOk result (λ hub. length hub.shown.plans.feeds ≡ 1) }
{
    Ok(ReplayHub::new(alloc, one_feed(alloc)?)?)
}

/// No views of a hub.
pub(crate) fn none(alloc: Global, _hub: &ReplayHub) -> Result<Kept, Fail>
    ensures { IfOk result (λ kept. AreOfHistory _hub.now.shown.plans _hub.now.history kept) }
{
    Ok(Kept::new(alloc)?)
}

/// Keeps the view of the hub.
fn keep(hub: &ReplayHub, kept: &mut Kept) -> Result<(), Fail>
    requires { AreOfHistory hub.now.shown.plans hub.now.history kept.old }
    ensures { OnOk result (AreOfHistory hub.now.shown.plans hub.now.history kept.new) }
{
    hub.sound();
    kept.put(hub.view())?;
    Ok(())
}

/// Offers a message of the feed, and keeps the view after it.
fn follow(hub: &mut ReplayHub, kept: &mut Kept, message: &[u8]) -> Result<(), Fail>
    requires feed { 0 < length hub.old.shown.plans.feeds }
    requires kept { AreOfHistory hub.old.shown.plans hub.old.history kept.old }
    ensures plans { hub.new.shown.plans ≡ hub.old.shown.plans }
    ensures kept { OnOk result (AreOfHistory hub.new.shown.plans hub.new.history kept.new) }
{
    hub.offer(0, message)?;
    keep(hub, kept)
}

/// Whether the view at that number is kept, and just these bytes changed since.
fn changed(
    alloc: Global,
    hub: &ReplayHub,
    kept: &Kept,
    number: u64,
    bytes: &[u8],
) -> Result<bool, NoMemory>
    requires plan { 0 < length hub.now.shown.plans.plans }
    requires kept { AreOfHistory hub.now.shown.plans hub.now.history kept.now }
{
    if !kept.has(number) {
        return Ok(false);
    }
    hub.sound();
    let told = since(alloc, kept, hub.view(), 0, number)?;
    Ok(told.as_slice() == bytes)
}

#[test]
fn what_came_since_a_number(rt: HostRuntime) -> Result<(), Fail> {
    let alloc = rt.alloc();
    let mut hub = hub(alloc)?;
    let mut kept = none(alloc, &hub)?;
    assert!(rt; !kept.has(0));
    keep(&hub, &mut kept)?;
    let nothing = b"\x0a\x09\x0a\x032.0\x10\x01\x18\x00";
    assert!(rt; changed(alloc, &hub, &kept, 0, nothing)?);
    follow(&mut hub, &mut kept, &ENTITY)?;
    let came = b"\x0a\x09\x0a\x032.0\x10\x01\x18\x05\x12\x05\x0a\x03a:x";
    assert!(rt; changed(alloc, &hub, &kept, 0, came)?);
    assert!(rt;
        changed(
            alloc,
            &hub,
            &kept,
            1,
            b"\x0a\x09\x0a\x032.0\x10\x01\x18\x05"
        )?
    );
    assert!(rt; !kept.has(7));
    Ok(())
}

#[test]
fn what_went_and_what_stayed(rt: HostRuntime) -> Result<(), Fail> {
    let alloc = rt.alloc();
    let mut hub = hub(alloc)?;
    let mut kept = none(alloc, &hub)?;
    follow(&mut hub, &mut kept, &ENTITY)?;
    follow(&mut hub, &mut kept, &AGAIN)?;
    assert!(rt;
        changed(
            alloc,
            &hub,
            &kept,
            1,
            b"\x0a\x09\x0a\x032.0\x10\x01\x18\x06"
        )?
    );
    follow(&mut hub, &mut kept, b"\x0a\x09\x0a\x032.0\x10\x00\x18\x07")?;
    let went = b"\x0a\x09\x0a\x032.0\x10\x01\x18\x07\x12\x07\x0a\x03a:x\x10\x01";
    assert!(rt; changed(alloc, &hub, &kept, 1, went)?);
    Ok(())
}

#[test]
fn sixty_four_views_are_kept(rt: HostRuntime) -> Result<(), Fail> {
    let alloc = rt.alloc();
    let mut hub = hub(alloc)?;
    let mut kept = none(alloc, &hub)?;
    keep(&hub, &mut kept)?;
    follow(&mut hub, &mut kept, &ENTITY)?;
    for stamp in 6..70 {
        follow(&mut hub, &mut kept, &without_entities(stamp))?;
    }
    assert!(rt; !kept.has(1));
    assert!(rt; kept.has(2));
    let nothing = b"\x0a\x09\x0a\x032.0\x10\x01\x18\x45";
    assert!(rt; changed(alloc, &hub, &kept, 2, nothing)?);
    Ok(())
}
