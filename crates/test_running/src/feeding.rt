//! All that a port hands in, taken in by a hub of one feed.

ghost use Rattle.std.specs.Prelude.{◌≡◌, ◌<◌, ◌≤◌, vec_len};
ghost use Rattle.std.specs.List.{All};
ghost use Rattle.feed_port.specs.Memory.{message_faults};
ghost use Rattle.feed_defs.specs.History.{longest_message};
ghost use Rattle.hub_outside.specs.Buffer.{room_of};
ghost use Rattle.feed_port.specs.Ports.{Answers, GoesOnToTell, HasPortCause};

use board_parts::Oracle;
use feed_port::{FeedPort, LONGEST_MESSAGE, MemoryPort, PortAnswer};
use hub_outside::Buf;
use hub_shared::{FeedSeat, Hub, IngestReport, Opened, PortEnd, close_hub, ingest_all, open_hub};
use sample_city::{FIVE, UPDATE, one_feed, port};
use snapshot_cell::Pass;
use std::alloc::Global;
use std::sync::Wait;
use std::test::Fail;
use std::thread::Threads;

/// What a report tells: how many were accepted, refused, starved and too long, and the last stamp;
/// and the end.
fn told(report: &IngestReport) -> ([u64; 5], PortEnd) {
    let numbers = [
        report.accepted,
        report.refused,
        report.starved,
        report.too_long,
        report.seat.last(),
    ];
    (numbers, report.end)
}

/// Takes in all that the port hands in, and ends the hub; what the report told, and how many
/// messages the ended hub has.
fn run<R: Threads + Wait + Sync, P: FeedPort>(
    rt: &R,
    alloc: Global,
    hub: Hub,
    seats: Vec<FeedSeat>,
    port: &mut P,
) -> Option<(([u64; 5], PortEnd), u64)>
    requires some { 0 < vec_len seats }
    requires ties { All (λ seat. seat.ties ≡ hub) seats.items }
{
    let mut seats = seats;
    let Some(seat) = seats.pop() else {
        unreachable!()
    };
    let report = ingest_all(rt, alloc, &hub, seat, port);
    let told = told(&report);
    let number = end_of_one(rt, hub, report.seat)?;
    Some((told, number))
}

/// Ends a hub of one seat; how many messages it has.
fn end_of_one<R: Threads + Wait + Sync>(rt: &R, hub: Hub, seat: FeedSeat) -> Option<u64>
    requires { seat.ties ≡ hub }
{
    let Ok(ending) = close_hub(rt, hub, &mut [seat]) else {
        return None;
    };
    let number = ending.number();
    ending.end(rt);
    Some(number)
}

/// The same of a hub that is opened.
fn run_over<R: Threads + Wait + Sync, P: FeedPort>(
    rt: &R,
    alloc: Global,
    port: &mut P,
) -> Option<(([u64; 5], PortEnd), u64)> {
    let Ok(opened) = open_hub(rt, alloc, one_feed(alloc).ok()?, 1) else {
        return None;
    };
    let Opened { hub, seats, passes } = opened;
    drop(passes);
    run(rt, alloc, hub, seats, port)
}

#[test]
fn a_second_message_of_a_stamp_is_refused(rt: HostRuntime) -> Result<(), Fail> {
    let mut port = port(rt.alloc(), &[&FIVE, &FIVE, &UPDATE], &[])?;
    assert_eq!(rt;
        run_over(&rt, rt.alloc(), &mut port),
        Some((([2, 1, 0, 0, 1_743_314_000], PortEnd::Ended), 2))
    );
    Ok(())
}

/// Its next ask hands in the message that the failed one left.
#[test]
fn a_port_that_fails_is_asked_no_more(rt: HostRuntime) -> Result<(), Fail> {
    let alloc = rt.alloc();
    let mut port = port(alloc, &[&FIVE, &UPDATE, &FIVE], &[2])?;
    let told = run_over(&rt, alloc, &mut port);
    assert_eq!(rt; told, Some((([1, 0, 0, 0, 5], PortEnd::PortFault), 1)));
    let mut into = Buf::new(alloc);
    into.reserve(LONGEST_MESSAGE)?;
    assert_eq!(rt; port.next(&mut into), PortAnswer::Message);
    assert_eq!(rt; into.as_slice(), UPDATE.as_slice());
    Ok(())
}

/// A port that looks at the hub at each ask, and writes down how many messages it has: a digit for
/// each ask.
#[derive(Drop)]
struct Watching {
    inner: MemoryPort,
    pass: Pass,
    seen: u64,
}

impl FeedPort for Watching {
    ghost use Rattle.std.specs.Prelude.{None};
    ghost use Rattle.feed_port.specs.Memory.{message_faults};

    ghost ahead = { λ _. None };

    ghost faults = { λ port. message_faults port.inner };

    fn next(&mut self, into: &mut Buf) -> PortAnswer {
        let digit = self.pass.look().unwrap_or(9);
        self.seen = self.seen.wrapping_mul(10).wrapping_add(digit);
        self.inner.next(into)
    }
}

/// What a watching port saw, of two messages.
fn watched<R: Threads + Wait + Sync>(rt: &R, alloc: Global) -> Option<u64> {
    let inner = port(alloc, &[&FIVE, &UPDATE], &[]).ok()?;
    let Ok(opened) = open_hub(rt, alloc, one_feed(alloc).ok()?, 1) else {
        return None;
    };
    let Opened {
        hub,
        seats,
        mut passes,
    } = opened;
    let Some(pass) = passes.pop() else {
        unreachable!()
    };
    let mut port = Watching {
        inner,
        pass,
        seen: 7,
    };
    run(rt, alloc, hub, seats, &mut port)?;
    Some(port.seen)
}

#[test]
fn each_ask_comes_behind_what_was_handed_in(rt: HostRuntime) -> Result<(), Fail> {
    assert_eq!(rt; watched(&rt, rt.alloc()), Some(7012));
    Ok(())
}
