//! The reader of a connection's requests.
ghost use Rattle.std.specs.Prelude.{◌≡◌, ℕ, List, [], IfOk, is_some};
ghost use Rattle.http_defs.specs.Requests.{Begins};
ghost use Rattle.http_defs.specs.declared.request.Request.{Request};
ghost use Rattle.http_req.specs.Reading.{Takes, HasTakeCause};

use crate::NoMemory;
use crate::filling::{Next, next_head};
use crate::finding::{HEAD_LIMIT, MOST_FIELDS, head_in};
use crate::making::request_at;
use http_defs::Request;
use httparse::spans::{EMPTY_HEADER_SPAN, HeaderSpan};
use hub_outside::Source;
use std::alloc::Global;
use std::marker::Model;

/// What [`RequestReader::take`] came to.
#[derive(Drop)]
pub enum Taken {
    /// The next request.
    Request(Request),
    /// The input ended, and no byte of a next request had come.
    End,
    /// What follows is no request.
    Bad,
    /// The source failed before a request was whole.
    ReadFault,
    /// Memory ran out.
    NoMemory,
}

/// The requests of one connection, or of several, one after another, with [`RequestReader::clear`]
/// before each. A contract sees the bytes that were read and stand behind the last request.
#[derive(Drop)]
pub struct RequestReader {
    buffer: Vec<u8>,
    // The bytes held are those between these places of the buffer. Taking a request doesn't move
    // what came after it: that is done once, before more is read.
    start: usize,
    filled: usize,
    headers: Vec<HeaderSpan>,
}

impl Model for RequestReader {
    ghost use Rattle.std.specs.Prelude.{ℕ, ◌-◌, List, take, drop};
    ghost use Rattle.http_req.specs.Reading.{IsReader};

    ghost Value = { List ℕ };

    ghost view = { λ r. take (r.filled - r.start) (drop r.start r.buffer.items) };

    ghost invariant = { λ r. IsReader r.buffer r.start r.filled r.headers };
}

impl RequestReader {
    /// A reader before the first byte of a connection, or want of memory. It takes 96 kB, and no
    /// call takes more than its request.
    pub fn new(alloc: Global) -> Result<RequestReader, NoMemory>
        ensures nothing_is_held { IfOk result (λ reader. reader ≡ []) }
    {
        Ok(RequestReader {
            buffer: vec![in alloc; 0; HEAD_LIMIT]?,
            start: 0,
            filled: 0,
            headers: vec![in alloc; EMPTY_HEADER_SPAN; MOST_FIELDS]?,
        })
    }

    /// The next request of a source from which all bytes so far were taken by this reader. It reads
    /// only where the bytes held begin with no request.
    pub fn take<S: Source>(&mut self, alloc: Global, source: &mut S) -> Taken
        ensures answers_what_the_bytes_begin_with { Takes self.old self.new (S.left source.old)
            (S.left source.new) result }
        ensures source_goes_on_telling { is_some (S.left source.new)
            ≡ is_some (S.left source.old) }
        ensures fault_has_a_cause { HasTakeCause result (S.faults source.old)
            (S.faults source.new) }
        ensures reads_only_where_none_is_held { (request : Request) (rest : List ℕ)
            → Begins self.old request rest → source.new ≡ source.old }
    {
        let held = &self.buffer[self.start..self.filled];
        let Some(spans) = head_in(held, &mut self.headers) else {
            return self.read_on(alloc, source);
        };
        let Ok(request) = request_at(alloc, held, &self.headers, spans) else {
            return Taken::NoMemory;
        };
        self.start += spans.len;
        Taken::Request(request)
    }

    /// The same, where the bytes held are moved to the front of the buffer first, to have room.
    fn read_on<S: Source>(&mut self, alloc: Global, source: &mut S) -> Taken
        ensures answers_what_the_bytes_begin_with { Takes self.old self.new (S.left source.old)
            (S.left source.new) result }
        ensures source_goes_on_telling { is_some (S.left source.new)
            ≡ is_some (S.left source.old) }
        ensures fault_has_a_cause { HasTakeCause result (S.faults source.old)
            (S.faults source.new) }
    {
        let held = self.filled - self.start;
        self.buffer.copy_within(self.start..self.filled, 0);
        self.start = 0;
        match next_head(&mut self.buffer, held, &mut self.headers, source) {
            Next::Head(spans, filled) => {
                self.filled = filled;
                match request_at(alloc, &self.buffer[..filled], &self.headers, spans) {
                    Ok(request) => {
                        self.start = spans.len;
                        Taken::Request(request)
                    }
                    Err(_) => Taken::NoMemory,
                }
            }
            Next::End => {
                self.clear();
                Taken::End
            }
            Next::Never(filled) => {
                self.filled = filled;
                Taken::Bad
            }
            Next::Failed(filled) => {
                self.filled = filled;
                Taken::ReadFault
            }
        }
    }

    /// Holds nothing any more, as before the first byte of a connection. The room stays.
    pub fn clear(&mut self)
        ensures nothing_is_held { self.new ≡ [] }
    {
        self.start = 0;
        self.filled = 0;
    }
}
