//! What is kept of the responses that were written.
ghost use Rattle.std.specs.Prelude.{◌≡◌, [], ◌∷◌, ◌++◌, OnOk};
ghost use Rattle.http_serve.specs.Notes.{noted_in, HasRoom};

use crate::{End, NoMemory, Session};
use std::alloc::Global;

/// The numbers and the moments of the responses that were written whole.
#[derive(Drop)]
pub(crate) struct Notes {
    numbers: Vec<u64>,
    moments: Vec<u64>,
}

impl Notes {
    /// No responses yet. It takes no memory.
    pub(crate) fn none(alloc: Global) -> Notes
        ensures { noted_in result ≡ record { numbers = []; moments = [] } }
    {
        Notes {
            numbers: Vec::new(alloc),
            moments: Vec::new(alloc),
        }
    }

    /// Makes room for one response more, or wants memory.
    pub(crate) fn make_room(&mut self) -> Result<(), NoMemory>
        ensures same { noted_in self.new ≡ noted_in self.old }
        ensures room { OnOk result (HasRoom self.new) }
    {
        self.numbers.reserve(1)?;
        self.moments.reserve(1)
    }

    /// Notes a response for which there is room.
    pub(crate) fn note(&mut self, number: u64, moment: u64)
        requires { HasRoom self.old }
        ensures { noted_in self.new ≡ record {
          numbers = self.old.numbers.items ++ number ∷ [];
          moments = self.old.moments.items ++ moment ∷ [];
        } }
    {
        self.numbers.push_reserved(number);
        self.moments.push_reserved(moment);
    }

    /// The session that ended so.
    pub(crate) fn session(self, end: End) -> Session
        ensures end { result.end ≡ end }
        ensures numbers { result.numbers.items ≡ self.numbers.items }
        ensures moments { result.moments.items ≡ self.moments.items }
    {
        Session {
            end,
            numbers: self.numbers,
            moments: self.moments,
        }
    }
}
