//! A source in memory.
ghost use Rattle.std.specs.Prelude.{◌≡◌, ℕ, ◌<◌, List, Option, Some, length, is_some};
ghost use Rattle.hub_outside.specs.Source.{IsReadWithin, TakesBytes, HasReadCause};
ghost use Rattle.hub_outside.specs.Calls.{no_calls};
ghost use Rattle.hub_outside.specs.Memory.{bytes_left, source_faults, read_answer, after_read};

use super::calls::{Calls, cut};
use crate::sources::{ReadAnswer, Source};
use std::marker::Model;

/// A source that gives the bytes of a vector, in pieces and with faults as it was told.
#[derive(Drop)]
pub struct MemorySource {
    bytes: Vec<u8>,
    at: usize,
    pieces: Vec<u32>,
    calls: Calls,
}

impl Model for MemorySource {
    ghost use Rattle.std.specs.Prelude.{◌≤◌, drop, vec_len};
    ghost use Rattle.hub_outside.specs.Memory.{SourceState};

    ghost Value = { SourceState };

    ghost view = { λ s. record {
      left = drop s.at s.bytes.items;
      pieces = s.pieces.items;
      calls = s.calls;
    } };

    ghost invariant = { λ s. s.at ≤ vec_len s.bytes };
}

impl MemorySource {
    /// A source of these bytes. The i-th call, from 1 on, gives at most the i-th of `pieces`, where
    /// 0 counts as 1; past that list there is no cut. The calls whose numbers are in `failing`
    /// fail. It takes no memory.
    pub fn new(bytes: Vec<u8>, pieces: Vec<u32>, failing: Vec<u64>) -> MemorySource
        ensures { result ≡ record {
          left = bytes.items;
          pieces = pieces.items;
          calls = no_calls failing.items;
        } }
    {
        MemorySource {
            bytes,
            at: 0,
            pieces,
            calls: Calls::new(failing),
        }
    }
}

impl Source for MemorySource {
    ghost left = { λ s. Some (bytes_left s) };

    ghost faults = { source_faults };

    /// Reads the next piece. Its answer, and what it leaves, follow from the source alone: it fails
    /// exactly where its call is listed, and a call that fails takes no byte.
    fn read(&mut self, into: &mut [u8]) -> ReadAnswer
        requires { 0 < length into.old }
        ensures within { IsReadWithin result (length into.old) }
        ensures bytes { TakesBytes result (Some (bytes_left self.old)) (Some (bytes_left self.new))
            into.new }
        ensures cause { HasReadCause result (source_faults self.old) (source_faults self.new) }
        ensures answer { result ≡ read_answer self.old (length into.old) }
        ensures after { self.new ≡ after_read self.old (length into.old) }
    {
        let cut = cut(&self.pieces, self.calls.count(), into.len());
        if self.calls.begin() {
            return ReadAnswer::Failed;
        }
        let left = &self.bytes[self.at..];
        if left.is_empty() {
            return ReadAnswer::End;
        }
        let given = cut.min(left.len());
        into[..given].copy_from_slice(&left[..given]);
        self.at += given;
        ReadAnswer::Got(given)
    }
}
