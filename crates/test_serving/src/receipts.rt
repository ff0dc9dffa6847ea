//! A pass that learned of a message, beside one that did not.

ghost use Rattle.std.specs.Prelude.{◌≡◌, ◌≤◌, length};
ghost use Rattle.std.specs.List.{All};
ghost use Rattle.hub_shared.specs.Seats.{IsOf};

use http_serve::serve_bytes;
use hub_outside::NoMemory;
use hub_shared::{FeedSeat, Hub, Opened, Refusal, close_hub, ingest, open_hub};
use sample_city::{ASK, MOMENT, SERVED, UPDATE, two_feeds};
use snapshot_cell::Pass;
use std::alloc::Global;
use std::sync::Wait;
use std::test::Fail;
use std::thread::Threads;

/// The response after the update alone.
const LIVE: &str =
    "HTTP/1.1 200 OK\r\nContent-Type: text/plain; charset=utf-8\r\nContent-Length: 134\r\nX-Hub-Sequence: 1\r\nX-Hub-Moment: 1743314000\r\nConnection: keep-alive\r\n\r\nstop\tS3\tHarbour\nexpected\tscheduled\tdelay\tstate\troute\theadsign\ttrip\tdate\tplatform\n1743315300\t1743315000\t300\tlive\t7\tHill\tT1\t20250330\tS3\n";

/// The first feed sends the update, of which the pass learns.
fn send_update<R: Threads + Wait + Sync>(
    rt: &R,
    alloc: Global,
    hub: &Hub,
    seat: &mut FeedSeat,
    pass: &mut Pass,
) -> Result<(), Refusal>
    requires seat { seat.old.ties ≡ hub.now }
    requires pass { IsOf pass.old.line hub.now }
{
    let receipt = ingest(rt, alloc, hub, seat, &UPDATE)?;
    pass.learn(&receipt);
    Ok(())
}

/// The number of the response that a pass serves: that of the hub before the update, or behind it.
fn served_by(alloc: Global, pass: &mut Pass) -> Result<Option<u64>, NoMemory> {
    let served = serve_bytes(alloc, pass, MOMENT, ASK.as_bytes())?;
    let written = served.written.bytes();
    if written == SERVED[0].as_bytes() {
        Ok(Some(0))
    } else if written == LIVE.as_bytes() {
        Ok(Some(1))
    } else {
        Ok(None)
    }
}

/// The number of the response of a pass that learned of the update, and whether one which did not
/// serves either.
fn serve_both<R: Threads + Wait + Sync>(
    rt: &R,
    alloc: Global,
    hub: &Hub,
    seat: &mut FeedSeat,
    passes: &mut [Pass],
) -> Result<(Option<u64>, bool), Refusal>
    requires two { length passes.old ≡ 2 }
    requires seat { seat.old.ties ≡ hub.now }
    requires passes { All (λ pass. IsOf pass.line hub.now) passes.old }
{
    send_update(rt, alloc, hub, seat, &mut passes[0])?;
    let learned = served_by(alloc, &mut passes[0])?;
    let unlearned = served_by(alloc, &mut passes[1])?;
    Ok((learned, unlearned.is_some()))
}

/// The same of the city with two passes.
fn run_both<R: Threads + Wait + Sync>(rt: &R, alloc: Global) -> Option<(Option<u64>, bool)> {
    let Ok(plans) = two_feeds(alloc) else {
        return None;
    };
    let Ok(opened) = open_hub(rt, alloc, plans, 2) else {
        return None;
    };
    let Opened {
        hub,
        mut seats,
        mut passes,
    } = opened;
    let numbers = serve_both(rt, alloc, &hub, &mut seats[0], passes.as_mut_slice());
    if let Ok(ending) = close_hub(rt, hub, &mut []) {
        ending.end(rt);
    }
    numbers.ok()
}

#[test]
fn a_pass_that_learned_serves_the_message(rt: HostRuntime) -> Result<(), Fail> {
    assert_eq!(rt; run_both(&rt, rt.alloc()), Some((Some(1), true)));
    Ok(())
}
