//! A sink in memory.
ghost use Rattle.std.specs.Prelude.{◌≡◌, ℕ, ◌<◌, List, [], Option, Some, length, is_some};
ghost use Rattle.hub_outside.specs.Sink.{IsWriteWithin, AddsBytes, HasWriteCause};
ghost use Rattle.hub_outside.specs.Calls.{no_calls};
ghost use Rattle.hub_outside.specs.Memory.{bytes_written, sink_faults, Writes};

use super::calls::{Calls, cut};
use crate::sinks::{Sink, WriteAnswer};
use std::alloc::Global;
use std::marker::Model;

/// A sink that keeps what it takes, in pieces and with faults as it was told.
#[derive(Drop)]
pub struct MemorySink {
    written: Vec<u8>,
    pieces: Vec<u32>,
    calls: Calls,
}

impl Model for MemorySink {
    ghost use Rattle.hub_outside.specs.Memory.{SinkState};

    ghost Value = { SinkState };

    ghost view = { λ s. record {
      written = s.written.items;
      pieces = s.pieces.items;
      calls = s.calls;
    } };
}

impl MemorySink {
    /// A sink that holds nothing yet. The i-th call, from 1 on, takes at most the i-th of `pieces`,
    /// where 0 counts as 1; past that list there is no cut. The calls whose numbers are in
    /// `failing` fail. It takes no memory.
    pub fn new(alloc: Global, pieces: Vec<u32>, failing: Vec<u64>) -> MemorySink
        ensures { result ≡ record {
          written = [];
          pieces = pieces.items;
          calls = no_calls failing.items;
        } }
    {
        MemorySink {
            written: Vec::new(alloc),
            pieces,
            calls: Calls::new(failing),
        }
    }

    /// What was written so far.
    pub fn bytes(&self) -> &[u8]
        ensures { result.now ≡ bytes_written self.now }
    {
        self.written.as_slice()
    }
}

impl Sink for MemorySink {
    ghost written = { λ s. Some (bytes_written s) };

    ghost faults = { sink_faults };

    /// Takes the next piece. A call that is listed fails, and so does one whose bytes find no
    /// memory; a call that fails takes no byte.
    fn write(&mut self, bytes: &[u8]) -> WriteAnswer
        requires { 0 < length bytes.now }
        ensures within { IsWriteWithin result (length bytes.now) }
        ensures bytes { AddsBytes result (Some (bytes_written self.old))
            (Some (bytes_written self.new)) bytes.now }
        ensures cause { HasWriteCause result (sink_faults self.old) (sink_faults self.new) }
        ensures writes { Writes result self.old self.new bytes.now }
    {
        let taken = cut(&self.pieces, self.calls.count(), bytes.len());
        if self.calls.begin() {
            return WriteAnswer::Failed;
        }
        if self.written.extend_from_slice(&bytes[..taken]).is_err() {
            self.calls.fault();
            return WriteAnswer::Failed;
        }
        WriteAnswer::Took(taken)
    }
}
