//! Where readers come in.

ghost use Rattle.std.specs.Prelude.{◌≡◌, vec_len, IfOk};
ghost use Rattle.std.specs.List.{All};
ghost use Rattle.hub_outside.specs.Adapters.{tcp_faults, tcp_taken};

use crate::NoMemory;
use crate::accepting::ToldListener;
use crate::connecting::bind;
use crate::telling::{listening_line, no_listener_line, tell};
use hub_outside::{StdSink, SystemClock, TcpDoor};
use std::alloc::Global;
use std::io::Write;
use std::net::{Net, OpenListener, TcpListener, TcpStream};
use std::rt;
use std::sync::{Arc, Wait};

/// The listener of that address, and none where it can't be bound; a line on `errors` tells which.
/// With the port 0 the system chooses one, which the line names. The listener tells there why
/// connections can't be accepted.
pub fn listen<R, E>(
    rt: &R,
    alloc: Global,
    address: &str,
    errors: E,
) -> Result<Option<Arc<ToldListener<TcpListener, R, E>>>, NoMemory>
where
    R: Net<Listener = TcpListener, Stream = TcpStream> + rt::Clock + Wait + Copy,
    E: Write + Copy,
{
    match bind(rt, address) {
        Ok(listener) => {
            let listener = Arc::new(alloc, ToldListener::new(*rt, alloc, listener, errors))?;
            if let Ok(bound) = listener.local_addr() {
                let line = listening_line(alloc, bound)?;
                tell(&mut StdSink::new(errors), line.as_bytes());
            }
            Ok(Some(listener))
        }
        Err(cause) => {
            let line = no_listener_line(alloc, address, cause)?;
            tell(&mut StdSink::new(errors), line.as_slice());
            Ok(None)
        }
    }
}

/// So many doors of the listener, each for up to `most` connections, of which 0 sets no end.
/// Without a listener they are closed.
pub fn doors_of<L: OpenListener<Stream = TcpStream> + Drop, R: rt::Clock + Copy>(
    rt: &R,
    alloc: Global,
    listener: &Option<Arc<L>>,
    count: u32,
    most: u64,
) -> Result<Vec<TcpDoor<L, R>>, NoMemory>
    ensures count { IfOk result (λ doors. vec_len doors ≡ count) }
    ensures fresh { IfOk result (λ doors. All (λ door. tcp_taken door ≡ 0) doors.items) }
{
    let mut doors = Vec::with_capacity(alloc, count as usize)?;
    for _ in 0..count {
        doors.push(door_of(rt, alloc, listener, most)?)?;
    }
    Ok(doors)
}

/// One door of the listener, or a closed one.
fn door_of<L: OpenListener<Stream = TcpStream> + Drop, R: rt::Clock + Copy>(
    rt: &R,
    alloc: Global,
    listener: &Option<Arc<L>>,
    most: u64,
) -> Result<TcpDoor<L, R>, NoMemory>
    ensures taken { IfOk result (λ door. tcp_taken door ≡ 0) }
    ensures faults { IfOk result (λ door. tcp_faults door ≡ 0) }
{
    match listener {
        Some(listener) => {
            let listener = Arc::try_clone(listener)?;
            Ok(TcpDoor::new(alloc, listener, most, *rt))
        }
        None => Ok(TcpDoor::closed(alloc, *rt)),
    }
}

/// So many of the system's clocks.
pub fn clocks_of<R: rt::Clock + Copy>(
    rt: &R,
    alloc: Global,
    count: u32,
) -> Result<Vec<SystemClock<R>>, NoMemory>
    ensures { IfOk result (λ clocks. vec_len clocks ≡ count) }
{
    let mut clocks = Vec::with_capacity(alloc, count as usize)?;
    for _ in 0..count {
        clocks.push(SystemClock::new(*rt))?;
    }
    Ok(clocks)
}
