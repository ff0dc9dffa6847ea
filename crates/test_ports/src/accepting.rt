//! What a listener tells of connections that can't be accepted, over the loopback, at given
//! moments.

use crate::system::{errors_beside, told};
use hub_outside::{Door, DoorAnswer, TcpDoor};
use hub_ports::ToldListener;
use std::alloc::Global;
use std::cell::Cell;
use std::io::ErrorKind;
use std::net::{Net, OpenListener, SocketAddr, TcpListener, TcpStream};
use std::sync::{Arc, Wait};
use std::test::Fail;
use std::time::Duration;
use std::{io, rt};

/// A clock that shows these moments, one a reading, and then the start. Who has it may wait where
/// `R` may.
#[derive(Drop)]
struct Moments<R> {
    system: R,
    moments: Vec<u64>,
    readings: Cell<usize>,
}

impl<R> rt::Clock for Moments<R> {
    fn monotonic(&self) -> io::Result<Duration> {
        let reading = self.readings.get();
        self.readings.set(reading.saturating_add(1));
        let moment = self.moments.get(reading).copied().unwrap_or(0);
        Ok(Duration::from_secs(moment))
    }

    fn since_1970(&self) -> io::Result<Duration> {
        Ok(Duration::from_secs(0))
    }

    fn sleep(&self, _duration: Duration) {}
}

impl<R: Wait> Wait for Moments<R> {}

/// A listener of which the first calls fail, with these causes.
#[derive(Drop)]
struct Flaky {
    listener: TcpListener,
    causes: Vec<ErrorKind>,
    calls: Cell<usize>,
}

impl OpenListener for Flaky {
    type Stream = TcpStream;

    fn accept(&self) -> io::Result<(TcpStream, SocketAddr)> {
        let call = self.calls.get();
        self.calls.set(call.saturating_add(1));
        match self.causes.get(call) {
            Some(cause) => Err(io::Error::from(*cause)),
            None => self.listener.accept(),
        }
    }
}

/// Whether the next call of a door hands out a link, over a listener of which the first calls fail
/// so, at these moments, where a client waits; and what is told of it.
fn told_by_door<R>(
    rt: &R,
    alloc: Global,
    moments: Vec<u64>,
    causes: Vec<ErrorKind>,
) -> Result<(bool, String), Fail>
where
    R: Net<Listener = TcpListener, Stream = TcpStream> + rt::Clock + Wait + Copy,
{
    let errors = errors_beside(rt)?;
    let listener = TcpListener::bind(rt, "127.0.0.1:0")?;
    let _client = TcpStream::connect(rt, listener.local_addr()?)?;
    let flaky = Flaky {
        listener,
        causes,
        calls: Cell::new(0),
    };
    let clock = Moments {
        system: *rt,
        moments,
        readings: Cell::new(0),
    };
    let listener = Arc::new(alloc, ToldListener::new(clock, alloc, flaky, &errors.0))?;
    let mut door = TcpDoor::new(alloc, listener, 0, *rt);
    let is_linked = match door.next() {
        DoorAnswer::Link(input, output) => {
            door.done(input, output);
            true
        }
        DoorAnswer::End | DoorAnswer::Failed => false,
    };
    drop(door);
    Ok((is_linked, told(alloc, errors)?))
}

/// The first is told at once, and those of a minute by one line, with how many they are and the
/// cause of the last.
#[test]
fn what_passes_is_told_and_waited_for(rt: HostRuntime) -> Result<(), Fail> {
    let alloc = rt.alloc();
    let moments = vec![in alloc; 5, 6, 64, 65, 124]?;
    let causes = vec![in alloc;
        ErrorKind::Uncategorized,
        ErrorKind::PermissionDenied,
        ErrorKind::PermissionDenied,
        ErrorKind::ConnectionAborted,
        ErrorKind::OutOfMemory,
    ]?;
    let lines = "\
hub: can't accept a connection: too many open files, or another fault of the system
hub: can't accept a connection: 3 times, the last one: broken off
";
    let (is_linked, told) = told_by_door(&rt, alloc, moments, causes)?;
    assert!(rt; is_linked);
    assert_eq!(rt; told.as_str(), lines);
    Ok(())
}

#[test]
fn a_listener_that_fails_is_told(rt: HostRuntime) -> Result<(), Fail> {
    let alloc = rt.alloc();
    let causes = vec![in alloc; ErrorKind::InvalidInput]?;
    let (is_linked, told) = told_by_door(&rt, alloc, Vec::new(alloc), causes)?;
    let line = "hub: can't accept a connection: the listener has failed\n";
    assert!(rt; !is_linked);
    assert_eq!(rt; told.as_str(), line);
    Ok(())
}

#[test]
fn a_connection_that_is_accepted_tells_nothing(rt: HostRuntime) -> Result<(), Fail> {
    let alloc = rt.alloc();
    let (is_linked, told) = told_by_door(&rt, alloc, Vec::new(alloc), Vec::new(alloc))?;
    assert!(rt; is_linked);
    assert_eq!(rt; told.as_str(), "");
    Ok(())
}
