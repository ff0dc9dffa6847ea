//! Connections to a host, one after another.

ghost use Rattle.std.specs.Prelude.{◌≡◌, ◌≤◌, None, IfOk};
ghost use Rattle.hub_outside.specs.Doors.{HandsOut, MayGiveBack, GivesBack, HasDoorCause};
ghost use Rattle.hub_ports.specs.Dials.{dial_faults};

use crate::NoMemory;
use crate::connecting::connect;
use crate::failing::dial_news;
use crate::pacing::{Pace, seconds_of};
use crate::telling::tell;
use hub_outside::{Door, DoorAnswer, StdSink, StdSource};
use std::alloc::Global;
use std::io::{ErrorKind, Write};
use std::net::{Net, OpenStream, TcpListener, TcpStream};
use std::time::Duration;
use std::{io, rt, thread};

/// How many seconds a connection to one address of the host may take to be made.
const CONNECT_SECONDS: u64 = 10;

/// How many seconds a read may wait for its first byte, and a write for room.
const WAIT_SECONDS: u64 = 30;

/// The port of a host that names none (RFC 9110, section 4.2.1).
const HTTP_PORT: u16 = 80;

/// A door over the connections that are made to a host, one for each call. Before each but the
/// first, made or not, some seconds pass. A connection has times within which a read has to give
/// bytes and a write has to take some; where they pass, its source or its sink has failed. It never
/// ends. That a connection can't be made is told on `E`, the first at once and from there on once a
/// minute at most, by the clock of `R`.
#[derive(Drop)]
pub struct TcpDial<R, E> {
    system: R,
    alloc: Global,
    feed: String,
    address: String,
    every: u64,
    has_dialed: bool,
    faults: u64,
    pace: Pace,
    errors: E,
}

impl<R: Copy, E: Copy> TcpDial<R, E> {
    /// A door of that feed to that host, an address or a name, with a port or without one, for 80.
    /// So many seconds pass before each connection but the first. Or want of memory.
    pub fn new(
        system: R,
        alloc: Global,
        feed: &str,
        host: &str,
        every: u64,
        errors: E,
    ) -> Result<TcpDial<R, E>, NoMemory>
        ensures { IfOk result (λ dial. dial_faults dial ≡ 0) }
    {
        Ok(TcpDial {
            system,
            alloc,
            feed: String::from_str(alloc, feed)?,
            address: address_of(alloc, host)?,
            every,
            has_dialed: false,
            faults: 0,
            pace: Pace::new(),
            errors,
        })
    }
}

impl<R: rt::Clock, E: Write + Copy> TcpDial<R, E> {
    /// Tells that a connection can't be made, where that is due. Without memory for the line there
    /// is none.
    fn tell_cause(&mut self, cause: ErrorKind)
        ensures { dial_faults self.new ≡ dial_faults self.old }
    {
        let now = seconds_of(self.system.monotonic());
        let (feed, address) = (self.feed.as_str(), self.address.as_str());
        let news = dial_news(self.alloc, feed, address, &mut self.pace, now, cause);
        if let Ok(Some(line)) = news {
            tell(&mut StdSink::new(self.errors), line.as_slice());
        }
    }
}

impl<R, E> Door for TcpDial<R, E>
where
    R: Net<Listener = TcpListener, Stream = TcpStream> + rt::Clock,
    E: Write + Copy,
{
    type In = StdSource<TcpStream>;

    type Out = StdSink<TcpStream>;

    ghost links = { λ _. None };

    ghost faults = { dial_faults };

    /// Makes the next connection. It fails where there is none within its time.
    fn next(&mut self) -> DoorAnswer<StdSource<TcpStream>, StdSink<TcpStream>>
        ensures links { HandsOut result None None }
        ensures cause { HasDoorCause result (dial_faults self.old) (dial_faults self.new) }
    {
        if self.has_dialed {
            thread::sleep(&self.system, Duration::from_secs(self.every));
        }
        self.has_dialed = true;
        match dial(&self.system, self.address.as_str()) {
            Ok((input, output)) => DoorAnswer::Link(StdSource::new(input), StdSink::new(output)),
            Err(cause) => {
                self.tell_cause(cause);
                self.faults = self.faults.saturating_add(1);
                DoorAnswer::Failed
            }
        }
    }

    /// Closes the connection. What its host sends from there on is not read.
    fn done(&mut self, _input: StdSource<TcpStream>, _output: StdSink<TcpStream>)
        ensures cause { dial_faults self.old ≤ dial_faults self.new }
        ensures same { self.new ≡ self.old }
    {}
}

/// The two ends of a connection to the address; or why there is none.
fn dial<R: Net<Listener = TcpListener, Stream = TcpStream>>(
    rt: &R,
    address: &str,
) -> Result<(TcpStream, TcpStream), ErrorKind> {
    let stream = connect(rt, address, CONNECT_SECONDS)?;
    match ends_of(stream) {
        Ok(ends) => Ok(ends),
        Err(error) => Err(error.kind()),
    }
}

/// The two ends of a connection, with its times set.
fn ends_of(stream: TcpStream) -> io::Result<(TcpStream, TcpStream)> {
    stream.set_read_timeout(Some(Duration::from_secs(WAIT_SECONDS)))?;
    stream.set_write_timeout(Some(Duration::from_secs(WAIT_SECONDS)))?;
    let output = stream.try_clone()?;
    Ok((stream, output))
}

/// The host with its port.
fn address_of(alloc: Global, host: &str) -> Result<String, NoMemory> {
    if has_port(host) {
        format!(in alloc; "{host}")
    } else {
        format!(in alloc; "{host}:{HTTP_PORT}")
    }
}

/// Whether a host names a port. The colons of an address of IPv6 stand within brackets.
fn has_port(host: &str) -> bool {
    host.contains(':') && !host.ends_with(']')
}
