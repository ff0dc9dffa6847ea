//! A request whose bytes come in two pieces: it is cut at each place in turn.

use crate::runs::run_city;
use hub_outside::{MemoryDoor, MemoryLink, MemorySource, NoMemory, OpenGate};
use sample_city::{ASK, door, number_at, port, sink};
use std::alloc::Global;
use std::test::Fail;

/// What a run writes in which no feed says anything, and each such link has one response.
const LINES: &str =
    "feed a accepted 0 refused 0 starved 0 toolong 0 last 0\nfeed b accepted 0 refused 0 starved 0 toolong 0 last 0\nreaders 2 connections 47 responses 47 starved 0\n";

/// A link that asks for the board of the harbour in two pieces, the first of them of so many bytes.
fn cut_link(alloc: Global, first: u32) -> Result<MemoryLink, NoMemory> {
    let bytes = Vec::from_slice(alloc, ASK.as_bytes())?;
    let pieces = vec![in alloc; first]?;
    Ok(MemoryLink {
        input: MemorySource::new(bytes, pieces, Vec::new(alloc)),
        output: sink(alloc),
    })
}

/// A door with such a link for each place between two bytes of the request.
fn cut_door(alloc: Global) -> Result<MemoryDoor, NoMemory> {
    let mut links = Vec::new(alloc);
    for first in 1..ASK.len() {
        links.push(cut_link(alloc, first as u32)?)?;
    }
    MemoryDoor::new(alloc, links, Vec::new(alloc))
}

#[test]
fn cuts_change_nothing(rt: HostRuntime) -> Result<(), Fail> {
    let alloc = rt.alloc();
    let first = port(alloc, &[], &[])?;
    let second = port(alloc, &[], &[])?;
    let mut ports = [first, second];
    let cut = cut_door(alloc)?;
    let none = door(alloc, 0, &[])?;
    let mut doors = [cut, none];
    let mut out = sink(alloc);
    let status = run_city(&rt, alloc, &mut ports, &mut doors, &OpenGate, &mut out)?;
    assert_eq!(rt; status, 0);
    assert_eq!(rt; out.bytes(), LINES.as_bytes());
    assert_eq!(rt; doors[0].links_done().len(), ASK.len() - 1);
    for place in 0..ASK.len() - 1 {
        assert_eq!(rt; number_at(&doors[0], place), Some(0), "the cut at {place}");
    }
    Ok(())
}
