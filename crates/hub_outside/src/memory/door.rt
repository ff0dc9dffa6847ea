//! A door in memory.
ghost use Rattle.std.specs.Prelude.{◌≡◌, ◌≤◌, Option, Some, IfOk};
ghost use Rattle.hub_outside.specs.Doors.{HandsOut, MayGiveBack, GivesBack, HasDoorCause};
ghost use Rattle.hub_outside.specs.Memory.{links_in, door_faults, new_door, door_answer, after_next, after_done};

use super::calls::Calls;
use super::sink::MemorySink;
use super::source::MemorySource;
use crate::NoMemory;
use crate::doors::{Door, DoorAnswer};
use std::alloc::Global;
use std::marker::Model;
use std::vec::IntoIter;

/// A link in memory. Contracts see it as the pair of its source and its sink.
#[derive(Drop)]
pub struct MemoryLink {
    /// What comes in.
    pub input: MemorySource,
    /// Where the answers go.
    pub output: MemorySink,
}

impl Model for MemoryLink {
    ghost use Rattle.hub_outside.specs.Memory.{SourceState, SinkState};

    ghost Value = { SourceState × SinkState };

    ghost view = { λ link. (link.input, link.output) };
}

/// A door that hands out the links of a list, with faults as it was told, and keeps those that were
/// given back.
#[derive(Drop)]
pub struct MemoryDoor {
    ahead: IntoIter<MemoryLink>,
    done: Vec<MemoryLink>,
    out: usize,
    calls: Calls,
}

impl Model for MemoryDoor {
    ghost use Rattle.std.specs.Prelude.{◌+◌, ◌≤◌, vec_len, vec_capacity};
    ghost use Rattle.std.specs.Vec.Iter.{into_iter_items, into_iter_len};
    ghost use Rattle.hub_outside.specs.Memory.{DoorState};

    ghost Value = { DoorState };

    ghost view = { λ door. record {
      links = record {
        ahead = into_iter_items door.ahead;
        done = door.done.items;
        out = door.out;
      };
      calls = door.calls;
    } };

    // Whoever is out has room among those that were given back, so taking one back needs no memory.
    ghost invariant = { λ door.
        vec_len door.done + door.out + into_iter_len door.ahead ≤ vec_capacity door.done };
}

impl MemoryDoor {
    /// A door with these links ahead. The calls of `next` whose numbers, from 1 on, are in
    /// `failing` fail. It takes memory for the links to come back, and for nothing later.
    pub fn new(
        alloc: Global,
        links: Vec<MemoryLink>,
        failing: Vec<u64>,
    ) -> Result<MemoryDoor, NoMemory>
        ensures { IfOk result (λ door. door ≡ new_door links.items failing.items) }
    {
        let done = Vec::with_capacity(alloc, links.len())?;
        Ok(MemoryDoor {
            ahead: links.into_iter(),
            done,
            out: 0,
            calls: Calls::new(failing),
        })
    }

    /// The links that were given back so far, in their order.
    pub fn links_done(&self) -> &[MemoryLink]
        ensures { result.now ≡ self.now.links.done }
    {
        self.done.as_slice()
    }
}

impl Door for MemoryDoor {
    type In = MemorySource;

    type Out = MemorySink;

    ghost links = { λ door. Some (links_in door) };

    ghost faults = { door_faults };

    /// Hands out the next link. Its answer, and what it leaves, follow from the door alone: it
    /// fails exactly where its call is listed, and a call that fails leaves the links.
    fn next(&mut self) -> DoorAnswer<MemorySource, MemorySink>
        ensures links { HandsOut result (Some (links_in self.old)) (Some (links_in self.new)) }
        ensures cause { HasDoorCause result (door_faults self.old) (door_faults self.new) }
        ensures answer { result ≡ door_answer self.old }
        ensures after { self.new ≡ after_next self.old }
    {
        if self.calls.begin() {
            return DoorAnswer::Failed;
        }
        let Some(link) = self.ahead.next() else {
            return DoorAnswer::End;
        };
        self.out += 1;
        DoorAnswer::Link(link.input, link.output)
    }

    /// Keeps the link behind those that were given back before.
    fn done(&mut self, input: MemorySource, output: MemorySink)
        requires { MayGiveBack (Some (links_in self.old)) }
        ensures links { GivesBack input output
            (Some (links_in self.old)) (Some (links_in self.new)) }
        ensures cause { door_faults self.old ≤ door_faults self.new }
        ensures after { self.new ≡ after_done self.old input output }
    {
        self.out -= 1;
        self.done.push_reserved(MemoryLink { input, output });
    }
}
