//! Addresses that are tried one after another.

ghost use Rattle.std.specs.Prelude.{◌≡◌};
ghost use Rattle.hub_ports.specs.Lines.{cause_of_name};

use std::io;
use std::io::ErrorKind;
use std::net::{Net, SocketAddr, TcpListener, TcpStream, ToSocketAddrs};
use std::time::Duration;

/// A connection to the place, an address and a port; or why there is none. Where a name has several
/// addresses, the last of them tells why. Each may take so many seconds to be connected to.
pub(crate) fn connect<R: Net<Listener = TcpListener, Stream = TcpStream>>(
    rt: &R,
    place: &str,
    seconds: u64,
) -> Result<TcpStream, ErrorKind> {
    let within = Duration::from_secs(seconds);
    first_of(rt, place, &|address| rt.connect_timeout(address, within))
}

/// A listener bound to the place, an address and a port; or why there is none.
pub(crate) fn bind<R: Net<Listener = TcpListener, Stream = TcpStream>>(
    rt: &R,
    place: &str,
) -> Result<TcpListener, ErrorKind> {
    first_of(rt, place, &|address| rt.bind(address))
}

/// What the first address of the place gives that gives anything; or why the last one gives
/// nothing.
fn first_of<R: Net, T: Drop, F: Fn(SocketAddr) -> io::Result<T>>(
    rt: &R,
    place: &str,
    attempt: &F,
) -> Result<T, ErrorKind>
    requires { F.IsAlwaysCallable attempt.now }
{
    let addresses = match place.to_socket_addrs(rt) {
        Ok(addresses) => addresses,
        Err(error) => return Err(cause_of_name(error.kind())),
    };
    let mut cause = ErrorKind::NotFound;
    for address in addresses {
        match attempt(address) {
            Ok(made) => return Ok(made),
            Err(error) => cause = error.kind(),
        }
    }
    Err(cause)
}

/// Why a place has no addresses. The system has no kind of its own for a name that nobody knows.
fn cause_of_name(kind: ErrorKind) -> ErrorKind
    ensures { result ≡ cause_of_name kind }
{
    match kind {
        ErrorKind::Uncategorized => ErrorKind::NotFound,
        _ => kind,
    }
}
