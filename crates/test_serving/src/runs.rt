//! Runs of the small city, with ample memory.

ghost use Rattle.std.specs.Prelude.{◌≡◌, length};

use feed_port::FeedPort;
use hub_outside::{Gate, MemoryDoor, MemorySink, OpenGate};
use hub_serve::run_serve;
use sample_city::{MOMENT, city_doors, city_ports, clock, number_at, sink, two_feeds};
use std::alloc::Global;
use std::sync::Wait;
use std::test::Fail;
use std::thread::Threads;

/// What a run of the city writes where nothing fails.
pub(crate) const LINES: &str =
    "feed a accepted 2 refused 1 starved 0 toolong 0 last 1743314000\nfeed b accepted 0 refused 0 starved 0 toolong 0 last 0\nreaders 2 connections 2 responses 2 starved 0\n";

/// Runs the city with these ports and doors, and answers the status.
pub(crate) fn run_city<R, P, G>(
    rt: &R,
    alloc: Global,
    ports: &mut [P],
    doors: &mut [MemoryDoor],
    gate: &G,
    out: &mut MemorySink,
) -> Result<u8, Fail>
where
    R: Threads + Wait + Sync,
    P: FeedPort + Send,
    G: Gate + Sync,
    requires ports { length ports.old ≡ 2 }
    requires doors { length doors.old ≡ 2 }
{
    let plans = two_feeds(alloc)?;
    let clocks = vec![in alloc; clock(alloc, MOMENT)?, clock(alloc, MOMENT)?]?;
    Ok(run_serve(rt, alloc, plans, ports, doors, clocks, gate, out))
}

#[test]
fn feeds_are_taken_in_and_connections_served(rt: HostRuntime) -> Result<(), Fail> {
    let alloc = rt.alloc();
    let mut ports = city_ports(alloc)?;
    let mut doors = city_doors(alloc)?;
    let mut out = sink(alloc);
    let status = run_city(&rt, alloc, &mut ports, &mut doors, &OpenGate, &mut out)?;
    assert_eq!(rt; status, 0);
    assert_eq!(rt; out.bytes(), LINES.as_bytes());
    for door in &doors {
        assert_eq!(rt; door.links_done().len(), 1);
        assert!(rt; number_at(door, 0).is_some());
    }
    Ok(())
}
