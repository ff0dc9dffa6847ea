//! Doors: the form in memory, and the one over a listener on the loopback.
use hub_outside::{
    Door, DoorAnswer, Gate, GatePoint, MemoryDoor, MemoryLink, MemorySink, MemorySource, NoMemory,
    OpenGate, ReadAnswer, Sink, Source, TcpDoor, WriteAnswer,
};
use std::alloc::Global;
use std::cell::Cell;
use std::io::{ErrorKind, Read, Write};
use std::net::{OpenListener, Shutdown, SocketAddr, TcpListener, TcpStream};
use std::sync::Arc;
use std::test::Fail;
use std::time::Duration;
use std::{io, rt};

/// A link in memory with these bytes to read.
fn link_of(alloc: Global, bytes: &[u8]) -> Result<MemoryLink, NoMemory> {
    Ok(MemoryLink {
        input: MemorySource::new(
            Vec::from_slice(alloc, bytes)?,
            Vec::new(alloc),
            Vec::new(alloc),
        ),
        output: MemorySink::new(alloc, Vec::new(alloc), Vec::new(alloc)),
    })
}

/// Asks a door in memory once. A link is given back with these bytes written.
fn ask(door: &mut MemoryDoor, bytes: &[u8]) -> &'static str {
    match door.next() {
        DoorAnswer::Link(input, mut output) => {
            if !bytes.is_empty() {
                output.write(bytes);
            }
            door.done(input, output);
            "link"
        }
        DoorAnswer::End => "end",
        DoorAnswer::Failed => "failed",
    }
}

#[test]
fn memory_door_hands_out_its_links(rt: HostRuntime) -> Result<(), Fail> {
    let alloc = rt.alloc();
    let links = vec![in alloc; link_of(alloc, b"one")?, link_of(alloc, b"two")?]?;
    let mut door = MemoryDoor::new(alloc, links, vec![in alloc; 2]?)?;
    let answers = [
        ask(&mut door, b"1"),
        ask(&mut door, b"2"),
        ask(&mut door, b"3"),
        ask(&mut door, b"4"),
    ];
    assert_eq!(rt; answers, ["link", "failed", "link", "end"]);
    let mut written = String::new(alloc);
    for link in door.links_done() {
        if link.output.bytes() == b"1".as_slice() {
            written.push_str("1")?;
        }
        if link.output.bytes() == b"3".as_slice() {
            written.push_str("3")?;
        }
    }
    assert_eq!(rt; written.as_str(), "13");
    Ok(())
}

#[test]
fn open_gate_holds_nobody(_rt: HostRuntime) -> Result<(), Fail> {
    OpenGate.pass(GatePoint::Ingested(0));
    Ok(())
}

/// What a door's next link reads and then answers to `told`, and the first three bytes that it
/// read.
fn serve_one<C: rt::Clock + Copy>(
    door: &mut TcpDoor<TcpListener, C>,
) -> Option<(ReadAnswer, [u8; 3], WriteAnswer)> {
    let DoorAnswer::Link(mut input, mut output) = door.next() else {
        return None;
    };
    let mut into = [0u8; 8];
    let read = input.read(&mut into);
    let written = output.write(b"told");
    door.done(input, output);
    Some((read, [into[0], into[1], into[2]], written))
}

/// How many bytes two reads of a client give, and the first four.
fn two_reads(client: &mut TcpStream) -> io::Result<([usize; 2], [u8; 4])> {
    let mut into = [0u8; 8];
    let first = client.read(&mut into)?;
    let bytes = [into[0], into[1], into[2], into[3]];
    Ok(([first, client.read(&mut into)?], bytes))
}

#[test]
fn tcp_door_hands_out_connections(rt: HostRuntime) -> Result<(), Fail> {
    let listener = TcpListener::bind(&rt, "127.0.0.1:0")?;
    let address = listener.local_addr()?;
    let alloc = rt.alloc();
    let mut door = TcpDoor::new(alloc, Arc::new(alloc, listener)?, 1, rt);
    let mut client = TcpStream::connect(&rt, address)?;
    client.write_all(b"ask")?;
    let served = (ReadAnswer::Got(3), *b"ask", WriteAnswer::Took(4));
    assert_eq!(rt; serve_one(&mut door), Some(served));
    assert_eq!(rt; two_reads(&mut client)?, ([4, 0], *b"told"));
    assert!(rt; matches!(door.next(), DoorAnswer::End));
    Ok(())
}

/// A listener of which so many calls fail in this way before it accepts.
#[derive(Drop)]
struct Flaky {
    listener: TcpListener,
    failures: Cell<u32>,
    kind: ErrorKind,
}

impl OpenListener for Flaky {
    type Stream = TcpStream;

    fn accept(&self) -> io::Result<(TcpStream, SocketAddr)> {
        let left = self.failures.get();
        if left > 0 {
            self.failures.set(left - 1);
            return Err(io::Error::from(self.kind));
        }
        self.listener.accept()
    }
}

/// A clock that counts its pauses and makes none. It shows this moment.
#[derive(Clone, Copy)]
struct Counting<'a> {
    pauses: &'a Cell<u32>,
    seconds: &'a Cell<u64>,
}

impl<'a> rt::Clock for Counting<'a> {
    fn monotonic(&self) -> io::Result<Duration> {
        Ok(Duration::from_secs(self.seconds.get()))
    }

    fn since_1970(&self) -> io::Result<Duration> {
        Ok(Duration::from_secs(0))
    }

    fn sleep(&self, _duration: Duration) {
        self.pauses.set(self.pauses.get().saturating_add(1));
    }
}

/// What a door answers over a listener of which so many calls fail so, where a client waits, and
/// how often it paused.
fn asked(rt: &HostRuntime, failures: u32, kind: ErrorKind) -> Result<(&'static str, u32), Fail> {
    let listener = TcpListener::bind(rt, "127.0.0.1:0")?;
    let _client = TcpStream::connect(rt, listener.local_addr()?)?;
    let flaky = Flaky {
        listener,
        failures: Cell::new(failures),
        kind,
    };
    let (pauses, seconds) = (Cell::new(0), Cell::new(0));
    let clock = Counting {
        pauses: &pauses,
        seconds: &seconds,
    };
    let alloc = rt.alloc();
    let mut door = TcpDoor::new(alloc, Arc::new(alloc, flaky)?, 0, clock);
    let answer = match door.next() {
        DoorAnswer::Link(input, output) => {
            door.done(input, output);
            "link"
        }
        DoorAnswer::End => "end",
        DoorAnswer::Failed => "failed",
    };
    Ok((answer, pauses.get()))
}

#[test]
fn what_passes_is_waited_for(rt: HostRuntime) -> Result<(), Fail> {
    for (failures, kind, answer) in [
        (3, ErrorKind::ConnectionAborted, ("link", 3)),
        (1, ErrorKind::PermissionDenied, ("link", 1)),
        (2, ErrorKind::Unsupported, ("link", 2)),
        (9000, ErrorKind::Uncategorized, ("link", 9000)),
        (1, ErrorKind::InvalidInput, ("failed", 0)),
    ] {
        assert_eq!(rt; asked(&rt, failures, kind)?, answer, "{failures} failures");
    }
    Ok(())
}

#[test]
fn closed_door_fails(rt: HostRuntime) -> Result<(), Fail> {
    let mut door: TcpDoor<TcpListener, HostRuntime> = TcpDoor::closed(rt.alloc(), rt);
    assert!(rt; matches!(door.next(), DoorAnswer::Failed));
    assert!(rt; matches!(door.next(), DoorAnswer::Failed));
    Ok(())
}

/// The address of a listener that a door of so many connections has alone, and the door.
fn door_alone<'a>(
    rt: &HostRuntime,
    most: u64,
    clock: Counting<'a>,
) -> Result<(SocketAddr, TcpDoor<TcpListener, Counting<'a>>), Fail> {
    let listener = TcpListener::bind(rt, "127.0.0.1:0")?;
    let address = listener.local_addr()?;
    let listener = Arc::new(rt.alloc(), listener)?;
    Ok((address, TcpDoor::new(rt.alloc(), listener, most, clock)))
}

#[test]
fn a_door_that_is_done_lets_its_listener_go(rt: HostRuntime) -> Result<(), Fail> {
    let (pauses, seconds) = (Cell::new(0), Cell::new(0));
    let clock = Counting {
        pauses: &pauses,
        seconds: &seconds,
    };
    let (address, mut door) = door_alone(&rt, 1, clock)?;
    let client = TcpStream::connect(&rt, address)?;
    let DoorAnswer::Link(input, output) = door.next() else {
        return Err(Fail::from(io::Error::from(ErrorKind::NotConnected)));
    };
    assert!(rt; TcpStream::connect(&rt, address).is_err());
    drop(client);
    door.done(input, output);
    assert!(rt; matches!(door.next(), DoorAnswer::End));
    Ok(())
}

#[test]
fn an_answer_outlives_what_nobody_read(rt: HostRuntime) -> Result<(), Fail> {
    let (pauses, seconds) = (Cell::new(0), Cell::new(0));
    let clock = Counting {
        pauses: &pauses,
        seconds: &seconds,
    };
    let (address, mut door) = door_alone(&rt, 0, clock)?;
    let mut client = TcpStream::connect(&rt, address)?;
    client.write_all(&[b'x'; 60_000])?;
    client.shutdown(Shutdown::Write)?;
    let served = (ReadAnswer::Got(8), *b"xxx", WriteAnswer::Took(4));
    assert_eq!(rt; serve_one(&mut door), Some(served));
    assert_eq!(rt; two_reads(&mut client)?, ([4, 0], *b"told"));
    Ok(())
}

/// What a source and a sink answer whose clock shows these seconds at four reads, of which the
/// first three give a byte each, and what a sink answers then and at that last moment.
fn timed(rt: &HostRuntime, at: [u64; 4], last: u64) -> Result<([bool; 4], [bool; 2]), Fail> {
    let (pauses, seconds) = (Cell::new(0), Cell::new(0));
    let clock = Counting {
        pauses: &pauses,
        seconds: &seconds,
    };
    let (address, mut door) = door_alone(rt, 0, clock)?;
    let mut client = TcpStream::connect(rt, address)?;
    client.write_all(b"asks")?;
    let DoorAnswer::Link(mut input, mut output) = door.next() else {
        return Err(Fail::from(io::Error::from(ErrorKind::NotConnected)));
    };
    let mut into = [0u8; 1];
    let mut read = [false; 4];
    for (second, is_read) in at.iter().zip(&mut read) {
        seconds.set(*second);
        *is_read = input.read(&mut into) == ReadAnswer::Got(1);
    }
    let first = output.write(b"a") == WriteAnswer::Took(1);
    seconds.set(last);
    let second = output.write(b"b") == WriteAnswer::Took(1);
    drop(client);
    door.done(input, output);
    Ok((read, [first, second]))
}

#[test]
fn a_head_and_a_response_have_a_time(rt: HostRuntime) -> Result<(), Fail> {
    let good = timed(&rt, [5, 5, 14, 14], 74)?;
    assert_eq!(rt; good, ([true; 4], [true; 2]));
    let late = timed(&rt, [5, 5, 14, 15], 75)?;
    assert_eq!(rt; late, ([true, true, true, false], [true, false]));
    Ok(())
}

#[test]
fn a_new_head_has_its_own_time(rt: HostRuntime) -> Result<(), Fail> {
    let (pauses, seconds) = (Cell::new(0), Cell::new(1));
    let clock = Counting {
        pauses: &pauses,
        seconds: &seconds,
    };
    let (address, mut door) = door_alone(&rt, 0, clock)?;
    let mut client = TcpStream::connect(&rt, address)?;
    client.write_all(b"ab")?;
    let DoorAnswer::Link(mut input, mut output) = door.next() else {
        return Err(Fail::from(io::Error::from(ErrorKind::NotConnected)));
    };
    let mut into = [0u8; 1];
    let first = (input.read(&mut into), output.write(b"told"));
    seconds.set(100);
    let second = (input.read(&mut into), output.write(b"told"));
    let served = (ReadAnswer::Got(1), WriteAnswer::Took(4));
    assert_eq!(rt; (first, second), (served, served));
    drop(client);
    door.done(input, output);
    Ok(())
}
