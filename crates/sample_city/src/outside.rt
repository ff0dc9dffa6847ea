//! What a hub of the city is run with: ports, doors, links, sinks and clocks in memory.

ghost use Rattle.std.specs.Prelude.{◌≡◌, ◌≤◌, map, IfOk};
ghost use Rattle.text_defs.specs.Moments.{last_moment};

use crate::NoMemory;
use crate::messages::{ASK, FIVE, SERVED, UPDATE};
use feed_port::MemoryPort;
use hub_outside::{FixedClock, MemoryDoor, MemoryLink, MemorySink, MemorySource};
use std::alloc::Global;

/// A port of these messages, of which the asks of those numbers, from 1 on, fail.
pub fn port(alloc: Global, messages: &[&[u8]], failing: &[u64]) -> Result<MemoryPort, NoMemory> {
    let mut owned = Vec::new(alloc);
    for message in messages {
        owned.push(Vec::from_slice(alloc, message)?)?;
    }
    Ok(MemoryPort::new(owned, Vec::from_slice(alloc, failing)?))
}

/// The ports of the run of the city: the message of stamp 5 twice and then the update for one feed,
/// and nothing for the other.
pub fn city_ports(alloc: Global) -> Result<[MemoryPort; 2], NoMemory> {
    let first = port(alloc, &[&FIVE, &FIVE, &UPDATE], &[])?;
    let second = port(alloc, &[], &[])?;
    Ok([first, second])
}

/// A link with that request.
pub fn link(alloc: Global, request: &[u8]) -> Result<MemoryLink, NoMemory> {
    let bytes = Vec::from_slice(alloc, request)?;
    Ok(MemoryLink {
        input: MemorySource::new(bytes, Vec::new(alloc), Vec::new(alloc)),
        output: sink(alloc),
    })
}

/// A door of so many links that ask for the board of the harbour, of which the calls of those
/// numbers, from 1 on, fail.
pub fn door(alloc: Global, count: u32, failing: &[u64]) -> Result<MemoryDoor, NoMemory> {
    let mut links = Vec::new(alloc);
    for _ in 0..count {
        links.push(link(alloc, ASK.as_bytes())?)?;
    }
    MemoryDoor::new(alloc, links, Vec::from_slice(alloc, failing)?)
}

/// The doors of the run of the city, with one link each.
pub fn city_doors(alloc: Global) -> Result<[MemoryDoor; 2], NoMemory> {
    let first = door(alloc, 1, &[])?;
    let second = door(alloc, 1, &[])?;
    Ok([first, second])
}

/// A clock that stands at a moment up to the end of the year 9999.
pub fn clock(alloc: Global, moment: u64) -> Result<FixedClock, NoMemory>
    requires { moment ≤ last_moment }
{
    Ok(FixedClock::new(vec![in alloc; moment]?))
}

/// An output that holds nothing yet.
pub fn sink(alloc: Global) -> MemorySink {
    MemorySink::new(alloc, Vec::new(alloc), Vec::new(alloc))
}

/// After how many messages the link of that place, from 0 on, was answered, where it was given back
/// and what was written on it is the whole response after so many.
pub fn number_at(door: &MemoryDoor, place: usize) -> Option<usize> {
    let link = door.links_done().get(place)?;
    let written = link.output.bytes();
    SERVED
        .iter()
        .position(|response| written == response.as_bytes())
}
