//! A connection in memory, which is served at one moment.
ghost use Rattle.std.specs.Prelude.{◌≡◌, ◌≤◌, true, IfOk};
ghost use Rattle.text_defs.specs.Moments.{last_moment};
ghost use Rattle.http_serve.specs.Transcript.{IsTranscript, Finishes};

use crate::server::ConnectionServer;
use crate::{End, NoMemory};
use board_parts::Oracle;
use hub_outside::MemorySink;
use std::alloc::Global;

/// Why a connection whose whole input is there has no further request.
#[derive(Clone, Copy, Debug, PartialEq, Eq)]
pub enum Finish {
    /// Its input ended behind a whole request.
    Ended,
    /// The last response closes it.
    Closed,
    /// What follows is no request, which was answered.
    Bad,
}

/// A connection in memory that was served to its end.
#[derive(Drop)]
pub struct Transcript {
    /// All responses, one after another.
    pub written: MemorySink,
    /// Why there is no further one.
    pub finish: Finish,
}

/// Serves the connection whose input is these bytes, where each look finds what the oracle's
/// history is and each reading of the clock is this moment, in seconds since 1970 up to the end of
/// the year 9999; or wants memory. Over an oracle whose history stands still the answer depends on
/// its timetables and its history, the moment and the bytes alone.
pub fn serve_bytes<O: Oracle>(
    alloc: Global,
    oracle: &mut O,
    moment: u64,
    input: &[u8],
) -> Result<Transcript, NoMemory>
    requires { moment ≤ last_moment }
    ensures transcript { O.steady oracle.old ≡ true → IfOk result (λ transcript.
        IsTranscript (O.plans oracle.old) (O.history oracle.old) moment input.now transcript) }
    ensures plans { O.plans oracle.new ≡ O.plans oracle.old }
    ensures history { O.steady oracle.old ≡ true → O.history oracle.new ≡ O.history oracle.old }
{
    let mut server = ConnectionServer::new(alloc);
    server.serve_bytes(oracle, moment, input)
}

/// Why there is no further request. Where neither source nor sink fails but for want of memory, an
/// end without one is that want.
pub(crate) fn finish_of(end: End) -> Result<Finish, NoMemory>
    ensures { IfOk result (λ finish. Finishes end finish) }
{
    match end {
        End::Ended => Ok(Finish::Ended),
        End::Closed => Ok(Finish::Closed),
        End::Bad => Ok(Finish::Bad),
        End::ReadFault | End::WriteFault | End::NoMemory => Err(NoMemory),
    }
}
