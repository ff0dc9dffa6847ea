//! What serving a door came to.
ghost use Rattle.std.specs.Prelude.{◌≡◌, ◌+◌, length};
ghost use Rattle.http_door.specs.Doors.{capped, starved_once};

use http_serve::{End, Session};

/// Why a door is served no further.
#[derive(Clone, Copy, Debug, PartialEq, Eq)]
pub enum DoorEnd {
    /// It has no further link.
    Ended,
    /// It failed: its count of faults rose.
    Failed,
}

/// What serving a door came to. Each number stops at the last one of 64 bits.
#[derive(Clone, Copy, Debug, PartialEq, Eq)]
pub struct DoorReport {
    /// Why it is served no further.
    pub end: DoorEnd,
    /// How many links it handed out.
    pub connections: u64,
    /// How many responses were written whole.
    pub responses: u64,
    /// How many connections ended for want of memory.
    pub starved: u64,
}

impl DoorReport {
    /// No link yet, of a door that ends so.
    pub(crate) fn none() -> DoorReport
        ensures connections { result.connections ≡ 0 }
        ensures responses { result.responses ≡ 0 }
        ensures starved { result.starved ≡ 0 }
    {
        DoorReport {
            end: DoorEnd::Ended,
            connections: 0,
            responses: 0,
            starved: 0,
        }
    }

    /// Counts a connection that was served.
    pub(crate) fn count(&mut self, session: &Session)
        ensures connections { self.new.connections ≡ capped (self.old.connections + 1) }
        ensures responses { self.new.responses
            ≡ capped (self.old.responses + length session.now.numbers.items) }
        ensures starved { self.new.starved
            ≡ capped (self.old.starved + starved_once session.now.end) }
    {
        self.connections = self.connections.saturating_add(1);
        self.responses = self.responses.saturating_add(session.numbers.len() as u64);
        self.starved = self.starved.saturating_add(starved_once(session.end));
    }

    /// The same report with this end.
    pub(crate) fn ended(self, end: DoorEnd) -> DoorReport
        ensures { result ≡ record self { end = end } }
    {
        DoorReport { end, ..self }
    }
}

/// How a session that ended so counts among those that ended for want of memory.
fn starved_once(end: End) -> u64
    ensures { result ≡ starved_once end }
{
    match end {
        End::NoMemory => 1,
        _ => 0,
    }
}
