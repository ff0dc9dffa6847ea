//! Updates about runs, by their runs, those of one run as they count.

ghost use Rattle.std.specs.Prelude.{◌≡◌};
ghost use Rattle.std.specs.Cmp.Lexicographic.{slice_cmp};
ghost use Rattle.std.specs.Ordering.{nat_cmp, ordering_then};

use crate::NoMemory;
use crate::mention::Mention;
use copying::Copied;
use rt_types::Text;
use sched_types::Run;
use shared_list::{KeyFor, Keyed};
use std::cmp::Ordering;

/// An update about a run, by the id of its entity. Of those of one run the later one goes first,
/// and of those of one stamp that with the greater id, so that the one that counts is the first.
#[derive(Drop)]
pub(crate) struct Candidate {
    pub(crate) mention: Mention,
    /// The id of the entity.
    pub(crate) id: Text,
}

/// An update about a run, as it is looked up.
#[derive(Clone, Copy)]
pub(crate) struct CandidateAt<'a> {
    pub(crate) mention: Mention,
    pub(crate) id: &'a str,
}

/// Where the updates of a run begin.
#[derive(Clone, Copy)]
pub(crate) struct FirstOf {
    pub(crate) run: Run,
}

/// By how the stamps of two updates stand, and then by their ids. Ids are compared only where that
/// is needed.
fn by_weight(stamps: Ordering, id: &str, other: &str) -> Ordering
    ensures { result ≡ ordering_then stamps (slice_cmp nat_cmp id.now other.now) }
{
    match stamps {
        Ordering::Less => Ordering::Less,
        Ordering::Greater => Ordering::Greater,
        Ordering::Equal => id.cmp(other),
    }
}

impl Copied for Candidate {
    fn copy(&self) -> Result<Self, NoMemory> {
        Ok(Candidate {
            mention: self.mention,
            id: self.id.copy()?,
        })
    }
}

impl Keyed for Candidate {
    // The run, and the stamp and the id of an update.
    type Key = (Run, Option<(u64, Text)>);

    ghost use Rattle.run_overlay.specs.Keys.{candidate_key, candidate_cmp};
    ghost use Rattle.run_overlay.specs.Orders.{candidates_total, candidates_exact};

    ghost key_of = { candidate_key };

    ghost key_cmp = { candidate_cmp };

    // Nobody asks which are newer.
    ghost stamp_of = { λ _. 0 };

    fn stamp(&self) -> u64 {
        0
    }

    fn order(&self, other: &Self) -> Ordering {
        match self.mention.run.cmp(&other.mention.run) {
            Ordering::Less => Ordering::Less,
            Ordering::Greater => Ordering::Greater,
            Ordering::Equal => by_weight(
                other.mention.stamp.cmp(&self.mention.stamp),
                other.id.as_str(),
                self.id.as_str(),
            ),
        }
    }

    ghost total = { candidates_total };

    ghost exact = { candidates_exact };
}

impl<'a> KeyFor<Candidate> for CandidateAt<'a> {
    ghost use Rattle.std.specs.Prelude.{Some};

    ghost sought = { λ c. (c.mention.run, Some (c.mention.stamp, c.id.now)) };

    fn order_of(&self, candidate: &Candidate) -> Ordering {
        match candidate.mention.run.cmp(&self.mention.run) {
            Ordering::Less => Ordering::Less,
            Ordering::Greater => Ordering::Greater,
            Ordering::Equal => by_weight(
                self.mention.stamp.cmp(&candidate.mention.stamp),
                self.id,
                candidate.id.as_str(),
            ),
        }
    }
}

/// The run alone goes before its updates.
impl KeyFor<Candidate> for FirstOf {
    ghost use Rattle.std.specs.Prelude.{None};

    ghost sought = { λ first. (first.run, None) };

    fn order_of(&self, candidate: &Candidate) -> Ordering {
        candidate.mention.run.cmp(&self.run).then(Ordering::Greater)
    }
}
