//! A listener that tells why connections can't be accepted.

use crate::failing::accept_news;
use crate::pacing::{Pace, seconds_of};
use crate::telling::tell;
use hub_outside::StdSink;
use std::alloc::Global;
use std::io::{ErrorKind, Write};
use std::net::{OpenListener, SocketAddr};
use std::sync::{Mutex, Wait};
use std::{io, rt};

/// Who tells of connections that can't be accepted.
#[derive(Drop)]
struct AcceptTeller<E> {
    pace: Pace,
    errors: E,
}

/// A listener that hands on each answer of another one. Where that can't accept a connection, the
/// cause is told on `E`, the first at once and from there on once a minute at most, by the clock of
/// `R`, and that the listener itself has failed each time: whoever runs a server learns why nobody
/// is answered. Several doors may share it; they wait for each other while one of them tells.
#[derive(Drop)]
pub struct ToldListener<L, R, E> {
    listener: L,
    system: R,
    alloc: Global,
    teller: Mutex<AcceptTeller<E>>,
}

impl<L, R, E> ToldListener<L, R, E> {
    /// A listener over this one, of which nothing was told yet.
    pub fn new(system: R, alloc: Global, listener: L, errors: E) -> ToldListener<L, R, E> {
        let pace = Pace::new();
        ToldListener {
            listener,
            system,
            alloc,
            teller: Mutex::new(AcceptTeller { pace, errors }),
        }
    }
}

impl<L: OpenListener, R: rt::Clock + Wait, E: Write + Copy> OpenListener for ToldListener<L, R, E> {
    type Stream = L::Stream;

    /// Accepts the next connection. That it can't be accepted is told, where that is due.
    fn accept(&self) -> io::Result<(L::Stream, SocketAddr)> {
        match self.listener.accept() {
            Ok(accepted) => Ok(accepted),
            Err(error) => {
                let now = seconds_of(self.system.monotonic());
                self.teller
                    .lock(&self.system)
                    .hear(self.alloc, now, error.kind());
                Err(error)
            }
        }
    }

    fn local_addr(&self) -> io::Result<SocketAddr> {
        self.listener.local_addr()
    }
}

impl<E: Write + Copy> AcceptTeller<E> {
    /// Tells that a further connection can't be accepted, where that is due. Without memory for the
    /// line there is none.
    fn hear(&mut self, alloc: Global, now: u64, cause: ErrorKind) {
        if let Ok(Some(line)) = accept_news(alloc, &mut self.pace, now, cause) {
            tell(&mut StdSink::new(self.errors), line.as_bytes());
        }
    }
}
