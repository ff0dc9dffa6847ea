//! Connections of the system as links.
ghost use Rattle.std.specs.Prelude.{◌≡◌, ◌≤◌, None, true, false};
ghost use Rattle.hub_outside.specs.Adapters.{tcp_faults, tcp_listens, tcp_most, tcp_taken};
ghost use Rattle.hub_outside.specs.Decisions.{are_all, is_passing, CountsLinks};
ghost use Rattle.hub_outside.specs.Doors.{HandsOut, MayGiveBack, GivesBack, HasDoorCause};

use super::link::{TcpSink, TcpSource, close, ends_of};
use crate::doors::{Door, DoorAnswer};
use std::alloc::Global;
use std::io::ErrorKind;
use std::net::{OpenListener, TcpStream};
use std::sync::Arc;
use std::time::Duration;
use std::{rt, thread};

/// How many milliseconds pass before a door tries to accept a connection again.
const PAUSE_MILLISECONDS: u64 = 100;

/// A door over a listener of the system, which several doors may share. It ends after a given
/// number of connections, and lets the listener go with the last of them. Each connection has times
/// within which its client has to ask and to take what it is told; where they pass, its source or
/// its sink has failed.
#[derive(Drop)]
pub struct TcpDoor<L, C> {
    alloc: Global,
    listener: Option<Arc<L>>,
    system: C,
    most: u64,
    taken: u64,
    faults: u64,
}

impl<L: OpenListener<Stream = TcpStream> + Drop, C: rt::Clock + Copy> TcpDoor<L, C> {
    /// A door that hands out up to `most` connections of this listener, of which 0 sets no end. The
    /// clock is what it waits by between two tries, and what its connections are timed by: its
    /// monotonic readings, so that a change of the date ends no connection.
    pub fn new(alloc: Global, listener: Arc<L>, most: u64, system: C) -> TcpDoor<L, C>
        ensures most { tcp_most result ≡ most }
        ensures taken { tcp_taken result ≡ 0 }
        ensures faults { tcp_faults result ≡ 0 }
    {
        TcpDoor {
            alloc,
            listener: Some(listener),
            system,
            most,
            taken: 0,
            faults: 0,
        }
    }

    /// A door where there is no listener, as where its address can't be bound: each of its calls
    /// fails.
    pub fn closed(alloc: Global, system: C) -> TcpDoor<L, C>
        ensures most { tcp_most result ≡ 0 }
        ensures taken { tcp_taken result ≡ 0 }
        ensures faults { tcp_faults result ≡ 0 }
    {
        TcpDoor {
            alloc,
            listener: None,
            system,
            most: 0,
            taken: 0,
            faults: 0,
        }
    }
}

impl<L: OpenListener<Stream = TcpStream> + Drop, C: rt::Clock + Copy> Door for TcpDoor<L, C> {
    type In = TcpSource<C>;

    type Out = TcpSink<C>;

    ghost links = { λ _. None };

    ghost faults = { tcp_faults };

    /// Waits for the next connection. It fails where there is no listener, or where the listener
    /// itself fails; what passes is waited for, however long it lasts. With the last connection it
    /// lets the listener go, which is closed once no door has it.
    fn next(&mut self) -> DoorAnswer<TcpSource<C>, TcpSink<C>>
        ensures links { HandsOut result None None }
        ensures cause { HasDoorCause result (tcp_faults self.old) (tcp_faults self.new) }
        ensures counts { CountsLinks result (tcp_most self.old) (tcp_taken self.old)
            (tcp_taken self.new) }
        ensures most { tcp_most self.new ≡ tcp_most self.old }
        ensures lets_go { are_all (tcp_most self.new) (tcp_taken self.new) ≡ true
            → tcp_listens self.new ≡ false }
    {
        if are_all(self.most, self.taken) {
            self.listener = None;
            return DoorAnswer::End;
        }
        let Some((input, output)) = accepted(self.alloc, &self.listener, &self.system) else {
            self.faults = self.faults.saturating_add(1);
            return DoorAnswer::Failed;
        };
        self.taken = self.taken.saturating_add(1);
        if are_all(self.most, self.taken) {
            self.listener = None;
        }
        DoorAnswer::Link(input, output)
    }

    /// Closes the connection so that what was written last still arrives (RFC 9112, section 9.6):
    /// no more is sent, and what its client still sends is read and dropped for up to a second, up
    /// to 64 KiB. Where the client has closed already, or an end has failed, it is closed at once.
    fn done(&mut self, input: TcpSource<C>, output: TcpSink<C>)
        ensures cause { tcp_faults self.old ≤ tcp_faults self.new }
        ensures same { self.new ≡ self.old }
    {
        close(input, output);
    }
}

/// Whether so many connections are all that a door is to hand out.
fn are_all(most: u64, taken: u64) -> bool
    ensures { result ≡ are_all most taken }
{
    0 < most && most <= taken
}

/// The two ends of the next connection; or none, where there is no listener or it fails.
fn accepted<L: OpenListener<Stream = TcpStream> + Drop, C: rt::Clock + Copy>(
    alloc: Global,
    listener: &Option<Arc<L>>,
    system: &C,
) -> Option<(TcpSource<C>, TcpSink<C>)> {
    match listener {
        Some(listener) => accept(alloc, &**listener, system),
        None => None,
    }
}

/// Accepts a connection and gives its two ends. What passes is waited for: a connection that can't
/// be accepted or made ready is let go, and the next one is tried, for as many tries as a u64
/// counts.
fn accept<L: OpenListener<Stream = TcpStream>, C: rt::Clock + Copy>(
    alloc: Global,
    listener: &L,
    system: &C,
) -> Option<(TcpSource<C>, TcpSink<C>)> {
    for _ in 0..u64::MAX {
        match listener.accept() {
            Ok((stream, _)) => {
                if let Some(ends) = ends_of(alloc, stream, system) {
                    return Some(ends);
                }
            }
            Err(error) => {
                if !is_passing(error.kind()) {
                    return None;
                }
            }
        }
        thread::sleep(system, Duration::from_millis(PAUSE_MILLISECONDS));
    }
    None
}

/// Whether a connection that could not be accepted, for that cause, tells nothing of those that
/// come next. Else the listener itself has failed.
pub fn is_passing(kind: ErrorKind) -> bool
    ensures { result ≡ is_passing kind }
{
    match kind {
        ErrorKind::ConnectionAborted
        | ErrorKind::ConnectionReset
        | ErrorKind::HostUnreachable
        | ErrorKind::Interrupted
        | ErrorKind::NetworkDown
        | ErrorKind::NetworkUnreachable
        | ErrorKind::OutOfMemory
        | ErrorKind::PermissionDenied
        | ErrorKind::TimedOut
        | ErrorKind::Uncategorized
        | ErrorKind::Unsupported
        | ErrorKind::WouldBlock => true,
        _ => false,
    }
}
