//! The connection of a feed, made when its first message is asked for.

use crate::NoMemory;
use crate::connecting::connect;
use crate::telling::{no_connection_line, tell};
use hub_outside::StdSink;
use std::alloc::Global;
use std::io;
use std::io::{ErrorKind, Read, Write};
use std::net::{Net, TcpListener, TcpStream};

/// How many seconds a connection to one address of a place may take to be made.
const CONNECT_SECONDS: u64 = 5;

/// Where a feed's messages come from, and where it is told that no connection can be made.
#[derive(Drop)]
pub struct Calling<R, E> {
    system: R,
    alloc: Global,
    feed: String,
    place: String,
    errors: E,
}

/// A connection that messages come over. It is made at its first read, so by the thread that asks
/// for the messages: a place that doesn't answer delays nobody else.
#[derive(Drop)]
pub enum Connection<R, E> {
    /// The next read makes it.
    Ahead(Calling<R, E>),
    /// It was made.
    Made(TcpStream),
    /// It could not be made. Each read fails.
    Missing,
}

impl<R: Copy, E: Copy> Connection<R, E> {
    /// A connection of a feed to that place, an address and a port, that is still to be made. Where
    /// it can't be, `errors` is told; or want of memory.
    pub(crate) fn ahead(
        system: R,
        alloc: Global,
        feed: &str,
        place: &str,
        errors: E,
    ) -> Result<Connection<R, E>, NoMemory> {
        Ok(Connection::Ahead(Calling {
            system,
            alloc,
            feed: String::from_str(alloc, feed)?,
            place: String::from_str(alloc, place)?,
            errors,
        }))
    }
}

impl<R, E> Read for Connection<R, E>
where
    R: Net<Listener = TcpListener, Stream = TcpStream> + Copy,
    E: Write + Copy,
{
    /// Reads from the connection, which the first read makes. Where there is none it fails.
    fn read(&mut self, into: &mut [u8]) -> io::Result<usize> {
        if let Connection::Ahead(calling) = self {
            let made = made(calling);
            *self = made;
        }
        match self {
            Connection::Made(stream) => stream.read(into),
            Connection::Ahead(_) | Connection::Missing => {
                Err(io::Error::from(ErrorKind::NotConnected))
            }
        }
    }
}

/// The connection that was called for, and none where it can't be made, which a line tells then.
fn made<R, E>(calling: &Calling<R, E>) -> Connection<R, E>
where
    R: Net<Listener = TcpListener, Stream = TcpStream>,
    E: Write + Copy,
{
    let place = calling.place.as_str();
    match connect(&calling.system, place, CONNECT_SECONDS) {
        Ok(stream) => Connection::Made(stream),
        Err(cause) => {
            // Without memory for the line the feed's end alone tells it.
            if let Ok(line) = no_connection_line(
                calling.alloc,
                calling.feed.as_str(),
                place,
                1,
                cause,
            ) {
                tell(&mut StdSink::new(calling.errors), line.as_slice());
            }
            Connection::Missing
        }
    }
}
