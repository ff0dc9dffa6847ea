//! Runs for which an update counts, with their departures.

ghost use Rattle.std.specs.Prelude.{◌≡◌};
ghost use Rattle.std.specs.Option.{option_copied};
ghost use Rattle.run_overlay.specs.Turning.{rows_kept};

use crate::NoMemory;
use crate::row::LiveRow;
use copying::Copied;
use rt_types::{Items, Shared, Text};
use sched_types::Run;
use shared_list::{KeyFor, Keyed};
use std::cmp::Ordering;

/// A run with the update that counts for it.
#[derive(Drop)]
pub(crate) struct LiveRun {
    pub(crate) run: Run,
    /// The id of the update's entity.
    pub(crate) id: Text,
    /// The stamp of the update, in seconds since 1970.
    pub(crate) stamp: u64,
    /// Its departures, in order of places; none where it is deleted.
    pub(crate) rows: Shared<Items<LiveRow>>,
}

impl Copied for LiveRun {
    fn copy(&self) -> Result<Self, NoMemory> {
        Ok(LiveRun {
            run: self.run,
            id: self.id.copy()?,
            stamp: self.stamp,
            rows: self.rows.copy()?,
        })
    }
}

impl Keyed for LiveRun {
    type Key = Run;

    ghost use Rattle.run_overlay.specs.Keys.{live_run_key, run_cmp};
    ghost use Rattle.run_overlay.specs.Orders.{runs_total, runs_exact};

    ghost key_of = { live_run_key };

    ghost key_cmp = { run_cmp };

    // Nobody asks which are newer.
    ghost stamp_of = { λ _. 0 };

    fn stamp(&self) -> u64 {
        0
    }

    fn order(&self, other: &Self) -> Ordering {
        self.run.cmp(&other.run)
    }

    ghost total = { runs_total };

    ghost exact = { runs_exact };
}

impl KeyFor<LiveRun> for Run {
    ghost sought = { λ key. key };

    fn order_of(&self, live: &LiveRun) -> Ordering {
        live.run.cmp(self)
    }
}

/// The departures of a run, if it has an update.
pub(crate) fn rows_of<'a>(live: Option<&'a LiveRun>) -> &'a [LiveRow]
    ensures { result.now ≡ rows_kept (option_copied live.entry) }
{
    match live {
        Some(live) => live.rows.get().as_slice(),
        None => &[],
    }
}
