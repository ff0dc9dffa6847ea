//! A running hub on the outside of a system: a port for each feed, a listener that all doors share,
//! and a door and a clock for each reader, handed to `hub_serve::run_serve`.

ghost use Rattle.std.specs.Prelude.{◌≡◌, length};
ghost use Rattle.std.specs.Arc.{arc_value};
ghost use Rattle.hub_config_defs.specs.Right.{IsLegal};

use hub_config_defs::HubConf;
use hub_outside::{OpenGate, Sink};
use hub_ports::{HeldNumbers, clocks_of, doors_of, listen, open_ports};
use hub_serve::run_serve;
use sched_types::Plans;
use std::alloc::{AllocError as NoMemory, Global};
use std::io::Write;
use std::net::{Net, TcpListener, TcpStream};
use std::rt;
use std::sync::{Arc, Wait};
use std::thread::Threads;

/// Opens what the configuration names, and runs a hub on these timetables until all its ports and
/// doors have ended: gives the exit status of [`run_serve`], or want of memory for what it opens.
/// `out` gets the lines at the end of the run, and `errors` those of `hub_ports`; several threads
/// write to it, a whole line at once. Nothing that is opened is taken for standard input, output or
/// error, also where the program was started without them.
pub(crate) fn serve_on_system<R, K, E>(
    rt: &R,
    alloc: Global,
    plans: Arc<Plans>,
    conf: &HubConf,
    out: &mut K,
    errors: E,
) -> Result<u8, NoMemory>
where
    R: rt::Files
        + rt::Clock
        + Net<Listener = TcpListener, Stream = TcpStream>
        + Threads
        + Wait
        + Send
        + Sync
        + Copy,
    R::File: Send,
    R::Dir: Send,
    K: Sink,
    E: Write + Send + Copy,
    requires feeds { length (arc_value plans).feeds ≡ length conf.now.feeds }
    requires legal { IsLegal conf.now }
{
    let _held = HeldNumbers::hold(rt);
    let mut ports = open_ports(rt, alloc, conf.feeds.as_slice(), errors)?;
    let readers = conf.readers;
    // The doors alone keep the listener, so that it is closed once all of them have let it go.
    let mut doors = {
        let listener = listen(rt, alloc, conf.listen.as_str(), errors)?;
        doors_of(rt, alloc, &listener, readers, conf.connections)?
    };
    let clocks = clocks_of(rt, alloc, readers)?;
    Ok(run_serve(
        rt,
        alloc,
        plans,
        ports.as_mut_slice(),
        doors.as_mut_slice(),
        clocks,
        &OpenGate,
        out,
    ))
}
