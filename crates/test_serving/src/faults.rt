//! Runs of the small city in which a port, a door or the output fails.

use crate::runs::run_city;
use feed_port::{FeedPort, StreamPort};
use hub_outside::{MemoryDoor, MemorySink, MemorySource, NoMemory, OpenGate};
use sample_city::{FIVE, UPDATE, city_ports, door, number_at, port};
use std::alloc::Global;
use std::sync::Wait;
use std::test::Fail;
use std::thread::Threads;

/// What the ports of a run are.
#[derive(Clone, Copy)]
enum Ports {
    /// Those of the run of the city.
    Sound,
    /// The second ask of the first one fails.
    Failing,
    /// In boxes, and the first one is a stream with a message that is too long in front.
    TooLong,
}

/// A run: its ports, the calls that fail at the first door and at the output, and then the status,
/// what is written, and how many links are given back by the first door.
struct Case {
    ports: Ports,
    door_failing: &'static [u64],
    out_failing: &'static [u64],
    status: u8,
    lines: &'static str,
    served: usize,
}

const CASES: [Case; 6] = [
    Case {
        ports: Ports::Failing,
        door_failing: &[],
        out_failing: &[],
        status: 1,
        lines: "feed a accepted 1 refused 0 starved 0 toolong 0 last 5\nfeed b accepted 0 refused 0 starved 0 toolong 0 last 0\nreaders 2 connections 2 responses 2 starved 0\n",
        served: 1,
    },
    Case {
        ports: Ports::Sound,
        door_failing: &[1],
        out_failing: &[],
        status: 1,
        lines: "feed a accepted 2 refused 1 starved 0 toolong 0 last 1743314000\nfeed b accepted 0 refused 0 starved 0 toolong 0 last 0\nreaders 2 connections 1 responses 1 starved 0\n",
        served: 0,
    },
    Case {
        ports: Ports::TooLong,
        door_failing: &[],
        out_failing: &[],
        status: 1,
        lines: "feed a accepted 0 refused 0 starved 0 toolong 1 last 0\nfeed b accepted 0 refused 0 starved 0 toolong 0 last 0\nreaders 2 connections 2 responses 2 starved 0\n",
        served: 1,
    },
    Case {
        ports: Ports::Sound,
        door_failing: &[],
        out_failing: &[1],
        status: 5,
        lines: "",
        served: 1,
    },
    // Each line of a feed is thirteen pieces.
    Case {
        ports: Ports::Sound,
        door_failing: &[],
        out_failing: &[14],
        status: 5,
        lines: "feed a accepted 2 refused 1 starved 0 toolong 0 last 1743314000\n",
        served: 1,
    },
    // The fault of the output comes first.
    Case {
        ports: Ports::Failing,
        door_failing: &[1],
        out_failing: &[14],
        status: 5,
        lines: "feed a accepted 1 refused 0 starved 0 toolong 0 last 5\n",
        served: 0,
    },
];

/// The doors, of which the first fails so.
fn doors(alloc: Global, failing: &[u64]) -> Result<[MemoryDoor; 2], NoMemory> {
    let first = door(alloc, 1, failing)?;
    let second = door(alloc, 1, &[])?;
    Ok([first, second])
}

/// A port over a stream of these bytes.
fn stream(alloc: Global, bytes: &[u8]) -> Result<StreamPort<MemorySource>, NoMemory> {
    let bytes = Vec::from_slice(alloc, bytes)?;
    Ok(StreamPort::new(MemorySource::new(bytes, Vec::new(alloc), Vec::new(alloc))))
}

/// Runs the city with the ports of that kind.
fn run_kind<R: Threads + Wait + Sync>(
    rt: &R,
    alloc: Global,
    kind: Ports,
    doors: &mut [MemoryDoor; 2],
    out: &mut MemorySink,
) -> Result<u8, Fail> {
    match kind {
        Ports::Sound => run_city(rt, alloc, &mut city_ports(alloc)?, doors, &OpenGate, out),
        Ports::Failing => {
            let first = port(alloc, &[&FIVE, &UPDATE], &[2])?;
            let second = port(alloc, &[], &[])?;
            run_city(rt, alloc, &mut [first, second], doors, &OpenGate, out)
        }
        Ports::TooLong => {
            let first: Box<dyn FeedPort + Send> = Box::new(alloc, stream(alloc, b"\x01\0\0\x01")?)?;
            let second: Box<dyn FeedPort + Send> = Box::new(alloc, port(alloc, &[], &[])?)?;
            run_city(rt, alloc, &mut [first, second], doors, &OpenGate, out)
        }
    }
}

/// Whether a run comes to what is said of it; each link that is given back has a whole response.
fn comes_to<R: Threads + Wait + Sync>(rt: &R, alloc: Global, case: &Case) -> Result<bool, Fail> {
    let mut doors = doors(alloc, case.door_failing)?;
    let failing = Vec::from_slice(alloc, case.out_failing)?;
    let mut out = MemorySink::new(alloc, Vec::new(alloc), failing);
    let status = run_kind(rt, alloc, case.ports, &mut doors, &mut out)?;
    let [first, second] = &doors;
    Ok(
        status == case.status
            && out.bytes() == case.lines.as_bytes()
            && first.links_done().len() == case.served
            && number_at(first, 0).is_some() == (case.served == 1)
            && second.links_done().len() == 1
            && number_at(second, 0).is_some(),
    )
}

#[test]
fn faults_of_the_outside(rt: HostRuntime) -> Result<(), Fail> {
    for (place, case) in CASES.iter().enumerate() {
        assert!(rt;
            comes_to(&rt, rt.alloc(), case)?,
            "the case of place {place}"
        );
    }
    Ok(())
}
