//! Doors over a hub of one schedule without stops and of one feed, which sent nothing, at the
//! second 7.
use crate::given::{NOT_FOUND, hub};
use delta_out::Kept;
use http_door::{DoorEnd, DoorReport, serve_door};
use hub_outside::{
    FixedClock, Gate, GatePoint, MemoryDoor, MemoryLink, MemorySink, MemorySource, NoMemory,
};
use std::alloc::Global;
use std::cell::Cell;
use std::sync::Wait;
use std::test::Fail;

/// A request for a board of a stop that is not there.
const BOARD: &[u8] = b"GET /board/city/S3?limit=1 HTTP/1.1\r\n\r\n";

/// A link with these bytes, of which the reads of these numbers fail.
fn link_of(alloc: Global, bytes: &[u8], failing: Vec<u64>) -> Result<MemoryLink, NoMemory> {
    let bytes = Vec::from_slice(alloc, bytes)?;
    Ok(MemoryLink {
        input: MemorySource::new(bytes, Vec::new(alloc), failing),
        output: MemorySink::new(alloc, Vec::new(alloc), Vec::new(alloc)),
    })
}

/// A link with that request.
fn link(alloc: Global) -> Result<MemoryLink, NoMemory> {
    link_of(alloc, BOARD, Vec::new(alloc))
}

/// A door of two such links, of which the calls of these numbers fail.
fn door(alloc: Global, failing: Vec<u64>) -> Result<MemoryDoor, NoMemory> {
    let links = vec![in alloc; link(alloc)?, link(alloc)?]?;
    MemoryDoor::new(alloc, links, failing)
}

/// A gate that writes down what is passed, one digit a point.
#[derive(Drop)]
struct Log {
    points: Cell<u64>,
}

impl Gate for Log {
    fn pass(&self, at: GatePoint) {
        let digit = match at {
            GatePoint::BeforeAnswer(3) => 1,
            GatePoint::Answered(3) => 2,
            _ => 9,
        };
        let before = self.points.get();
        self.points.set(before.wrapping_mul(10).wrapping_add(digit));
    }
}

/// Serves that door as the reader 3; the report, and what was passed.
fn serve<R: Wait>(rt: &R, alloc: Global, door: &mut MemoryDoor) -> Result<(DoorReport, u64), Fail> {
    let mut hub = hub(alloc)?;
    let mut clock = FixedClock::new(vec![in alloc; 7]?);
    let log = Log {
        points: Cell::new(0),
    };
    let mut kept = Kept::new(alloc)?;
    let report = serve_door(rt, alloc, door, &mut hub, &mut clock, &log, 3, &mut kept);
    Ok((report, log.points.get()))
}

/// What was written on the links that were given back, one after another.
fn written(alloc: Global, door: &MemoryDoor) -> Result<Vec<u8>, NoMemory> {
    let mut bytes = Vec::new(alloc);
    for link in door.links_done() {
        bytes.extend_from_slice(link.output.bytes())?;
    }
    Ok(bytes)
}

#[test]
fn links_are_served_and_given_back(rt: HostRuntime) -> Result<(), Fail> {
    let mut door = door(rt.alloc(), Vec::new(rt.alloc()))?;
    let (report, points) = serve(&rt, rt.alloc(), &mut door)?;
    assert_eq!(rt; report.end, DoorEnd::Ended);
    assert_eq!(rt;
        (report.connections, report.responses, report.starved),
        (2, 2, 0)
    );
    assert_eq!(rt; points, 1212);
    assert_eq!(rt; door.links_done().len(), 2);
    let bytes = written(rt.alloc(), &door)?;
    let Some(second) = bytes.as_slice().strip_prefix(NOT_FOUND) else {
        return Err(Fail::from(NoMemory));
    };
    assert!(rt; second == NOT_FOUND);
    Ok(())
}

#[test]
fn door_that_fails_is_served_no_further(rt: HostRuntime) -> Result<(), Fail> {
    let mut door = door(rt.alloc(), vec![in rt.alloc(); 2]?)?;
    let (report, points) = serve(&rt, rt.alloc(), &mut door)?;
    assert_eq!(rt; report.end, DoorEnd::Failed);
    assert_eq!(rt;
        (report.connections, report.responses, report.starved),
        (1, 1, 0)
    );
    assert_eq!(rt; points, 12);
    let bytes = written(rt.alloc(), &door)?;
    assert!(rt; bytes.as_slice() == NOT_FOUND);
    Ok(())
}

/// Whether that request is answered as ever after a link with these bytes, of which the reads of
/// these numbers fail.
fn is_answered_after<R: Wait>(
    rt: &R,
    alloc: Global,
    bytes: &[u8],
    failing: Vec<u64>,
) -> Result<bool, Fail> {
    let links = vec![in alloc; link_of(alloc, bytes, failing)?, link(alloc)?]?;
    let mut door = MemoryDoor::new(alloc, links, Vec::new(alloc))?;
    let (report, _points) = serve(rt, alloc, &mut door)?;
    let [_first, second] = door.links_done() else {
        return Ok(false);
    };
    Ok(report.connections == 2 && second.output.bytes() == NOT_FOUND)
}

/// The front of a head, before a read that fails and before the end of its input; and a request
/// after one that closes its connection.
#[test]
fn no_link_leaves_bytes_to_the_next(rt: HostRuntime) -> Result<(), Fail> {
    let alloc = rt.alloc();
    let front = b"GET /board/city/S3?limit=1 HT";
    assert!(rt; is_answered_after(&rt, alloc, front, vec![in alloc; 2]?)?);
    assert!(rt; is_answered_after(&rt, alloc, front, Vec::new(alloc))?);
    let closed = b"POST /status HTTP/1.1\r\n\r\nGET /feed/city HTTP/1.1\r\n\r\n";
    assert!(rt; is_answered_after(&rt, alloc, closed, Vec::new(alloc))?);
    Ok(())
}
