//! The port of each feed.

ghost use Rattle.std.specs.Prelude.{◌≡◌, ◌==◌, ◌≤◌, true, length, vec_len, IfOk, IfSome};
ghost use Rattle.std.specs.List.{list_all, position_or_len};
ghost use Rattle.hub_config_defs.specs.Right.{has_numbers};
ghost use Rattle.hub_config_defs.specs.Values.{host_length, host_of, path_of};
ghost use Rattle.hub_ports.specs.Opened.{IsPortOf, IsPollingPortOf};
ghost use Rattle.hub_ports.specs.SystemPorts.{system_ahead, system_faults, ArePortsOf};

use crate::NoMemory;
use crate::connection::Connection;
use crate::dialing::TcpDial;
use crate::poll_teller::PollTeller;
use crate::reading::ToldFiles;
use crate::told::ToldPort;
use copying::Copied;
use feed_port::{FeedPort, MemoryPort, PortAnswer, SpoolPort, StreamPort};
use hub_config_defs::{FeedConf, PortKind};
use hub_outside::{Buf, StdSource};
use poll_port::PollPort;
use std::alloc::Global;
use std::io::Write;
use std::net::{Net, TcpListener, TcpStream};
use std::{rt, str};

/// The port of a feed, by the kind that the configuration gives it. It tells on `E` that a
/// connection can't be made, why polls fail, and why a file can't be read.
#[derive(Drop)]
pub enum SystemPort<R, E> {
    /// No message comes.
    Nothing(MemoryPort),
    /// Messages come as files of a folder.
    Spool(SpoolPort<ToldFiles<R, E>>),
    /// Messages come over a TCP connection.
    Stream(StreamPort<StdSource<Connection<R, E>>>),
    /// Messages come as replies to polls.
    Poll(PollPort<TcpDial<R, E>, PollTeller<R, E>>),
}

impl<R, E> FeedPort for SystemPort<R, E>
where
    R: rt::Files + rt::Clock + Net<Listener = TcpListener, Stream = TcpStream> + Send + Copy,
    R::File: Send,
    R::Dir: Send,
    E: Write + Send + Copy,
{
    ghost ahead = { system_ahead };

    ghost faults = { system_faults };

    fn next(&mut self, into: &mut Buf) -> PortAnswer {
        match self {
            SystemPort::Nothing(port) => port.next(into),
            SystemPort::Spool(port) => port.next(into),
            SystemPort::Stream(port) => port.next(into),
            SystemPort::Poll(port) => port.next(into),
        }
    }
}

/// The port of each feed, in their order. What becomes of each is told on `errors`. Their numbers
/// are in the ranges of a configuration.
pub fn open_ports<R, E>(
    rt: &R,
    alloc: Global,
    feeds: &[FeedConf],
    errors: E,
) -> Result<Vec<ToldPort<R, SystemPort<R, E>, E>>, NoMemory>
where
    R: rt::Files + rt::Clock + Net<Listener = TcpListener, Stream = TcpStream> + Send + Copy,
    R::File: Send,
    R::Dir: Send,
    E: Write + Send + Copy,
    requires numbers { list_all has_numbers feeds.now ≡ true }
    ensures count { IfOk result (λ ports. vec_len ports ≡ length feeds.now) }
    ensures each { IfOk result (λ ports. ArePortsOf feeds.now ports.items) }
{
    let mut ports = Vec::with_capacity(alloc, feeds.len())?;
    for feed in feeds {
        let port = open_port(rt, alloc, feed, errors)?;
        ports.push(ToldPort::new(*rt, alloc, port, feed, errors)?)?;
    }
    Ok(ports)
}

/// The port of a feed. No connection is made before its first ask. Where that of a stream can't be
/// made then, a line tells why, and that ask fails. One poll at least may be tried.
pub fn open_port<R, E>(
    rt: &R,
    alloc: Global,
    feed: &FeedConf,
    errors: E,
) -> Result<SystemPort<R, E>, NoMemory>
where
    R: rt::Files + rt::Clock + Net<Listener = TcpListener, Stream = TcpStream> + Send + Copy,
    R::File: Send,
    R::Dir: Send,
    E: Write + Send + Copy,
    requires { 1 ≤ feed.now.tries }
    ensures { IfOk result (λ port. IsPortOf feed.now port) }
{
    match feed.kind {
        PortKind::Nothing => {
            let port = MemoryPort::new(Vec::new(alloc), Vec::new(alloc));
            Ok(SystemPort::Nothing(port))
        }
        PortKind::Spool => {
            let files = ToldFiles::new(*rt, alloc, feed.name.as_str(), errors)?;
            let port = SpoolPort::new(alloc, files, feed.place.copy()?)?;
            Ok(SystemPort::Spool(port))
        }
        PortKind::Stream => {
            let (name, place) = (feed.name.as_str(), feed.place.as_str());
            let connection = Connection::ahead(*rt, alloc, name, place, errors)?;
            Ok(SystemPort::Stream(StreamPort::new(StdSource::new(connection))))
        }
        PortKind::Poll => Ok(SystemPort::Poll(polling_port(rt, alloc, feed, errors)?)),
    }
}

/// The port of a feed that is polled. No connection is made before its first ask.
fn polling_port<R, E>(
    rt: &R,
    alloc: Global,
    feed: &FeedConf,
    errors: E,
) -> Result<PollPort<TcpDial<R, E>, PollTeller<R, E>>, NoMemory>
where
    R: Net<Listener = TcpListener, Stream = TcpStream> + rt::Clock + Send + Copy,
    E: Write + Send + Copy,
    requires { 1 ≤ feed.now.tries }
    ensures { IfOk result (IsPollingPortOf feed.now) }
{
    let place = feed.place.as_str();
    let (Some(host), Some(path)) = (host_in(place), path_in(place)) else {
        return Err(NoMemory);
    };
    let name = feed.name.as_str();
    let dial = TcpDial::new(*rt, alloc, name, host, feed.every, errors)?;
    let teller = PollTeller::new(*rt, alloc, name, errors)?;
    PollPort::new(alloc, dial, host, path, feed.polls, feed.tries, teller)
}

/// The host of a place. There is one, since a `/` never stands within a character.
#[tactic(auto, unfolding(hub_config_defs::specs::Values::host_of))]
fn host_in(place: &str) -> Option<&str>
    ensures { IfSome result (λ host. host.now ≡ host_of place.now) }
{
    let bytes = place.as_bytes();
    match str::from_utf8(&bytes[..host_length(bytes)]) {
        Ok(host) => Some(host),
        Err(_) => None,
    }
}

/// The path behind the host of a place, from its `/` on.
#[tactic(auto, unfolding(hub_config_defs::specs::Values::path_of))]
fn path_in(place: &str) -> Option<&str>
    ensures { IfSome result (λ path. path.now ≡ path_of place.now) }
{
    let bytes = place.as_bytes();
    match str::from_utf8(&bytes[host_length(bytes)..]) {
        Ok(path) => Some(path),
        Err(_) => None,
    }
}

/// How many bytes of a place are its host: those in front of the first `/` that stands behind at
/// least one byte.
fn host_length(place: &[u8]) -> usize
    ensures value { result ≡ host_length place.now }
    ensures within { result ≤ length place.now }
{
    match place {
        [_, behind @ ..] => 1 + slash_in(behind),
        [] => 0,
    }
}

/// How many bytes stand in front of the first `/`.
fn slash_in(bytes: &[u8]) -> usize
    ensures value { result ≡ position_or_len (λ c. c == 47) bytes.now }
    ensures within { result ≤ length bytes.now }
{
    let mut front = 0;
    for byte in bytes {
        if *byte == b'/' {
            return front;
        }
        front += 1;
    }
    front
}
