//! Departures in the order of their stops.

ghost use Rattle.std.specs.Prelude.{◌≡◌};
ghost use Rattle.run_overlay.specs.Keys as rule;
ghost use Rattle.run_overlay.specs.Live.{slot_cmp};
ghost use Rattle.run_overlay.specs.Turning.{same_row};

use crate::NoMemory;
use crate::slot::LiveSlot;
use copying::Copied;
use shared_list::{KeyFor, Keyed};
use std::cmp::Ordering;

/// A departure, and the number of the stop at which it is.
#[derive(Clone, Copy, Debug, PartialEq, Eq)]
pub(crate) struct LiveRow {
    pub(crate) stop: u32,
    pub(crate) slot: LiveSlot,
}

/// By what departures are ordered: the stop, the expected instant, the trip, the day and the place.
#[derive(Clone, Copy, Debug, PartialEq, Eq, PartialOrd, Ord, Drop)]
pub(crate) struct RowKey {
    pub(crate) stop: u32,
    pub(crate) at: i64,
    pub(crate) trip: u32,
    pub(crate) day: u32,
    pub(crate) place: u32,
}

/// By the expected instant, the trip, the day and the place. Most departures of a stop differ in
/// the first.
fn slot_order(a: &LiveSlot, b: &LiveSlot) -> Ordering
    ensures { result ≡ slot_cmp a.now b.now }
{
    if a.at < b.at {
        Ordering::Less
    } else if b.at < a.at {
        Ordering::Greater
    } else {
        let trip = a.run.trip.cmp(&b.run.trip);
        let day = a.run.day.cmp(&b.run.day);
        trip.then(day.then(a.place.cmp(&b.place)))
    }
}

/// By the stop, and then as `slot_order` says. No key is made for it, since lists compare
/// departures more often than they do anything else.
fn row_order(a: &LiveRow, b: &LiveRow) -> Ordering
    ensures { result ≡ rule.row_cmp (rule.row_key a.now) (rule.row_key b.now) }
{
    if a.stop < b.stop {
        Ordering::Less
    } else if b.stop < a.stop {
        Ordering::Greater
    } else {
        slot_order(&a.slot, &b.slot)
    }
}

/// Whether two departures are the same in all that is known of them.
pub(crate) fn is_same(a: &LiveRow, b: &LiveRow) -> bool
    ensures { result ≡ same_row a.now b.now }
{
    a == b
}

impl Copied for LiveRow {
    fn copy(&self) -> Result<Self, NoMemory> {
        Ok(*self)
    }
}

impl Keyed for LiveRow {
    type Key = RowKey;

    ghost use Rattle.run_overlay.specs.Keys.{row_key, row_cmp};
    ghost use Rattle.run_overlay.specs.Orders.{rows_total, rows_exact};

    ghost key_of = { row_key };

    ghost key_cmp = { row_cmp };

    // Nobody asks which are newer.
    ghost stamp_of = { λ _. 0 };

    fn stamp(&self) -> u64 {
        0
    }

    fn order(&self, other: &Self) -> Ordering {
        row_order(self, other)
    }

    /// All at once, since departures are plain values.
    fn copies(items: &Vec<Self>, more: usize) -> Result<Vec<Self>, NoMemory> {
        let mut same = Vec::with_capacity(*items.allocator(), items.len().saturating_add(more))?;
        same.extend_from_slice(items.as_slice())?;
        Ok(same)
    }

    ghost total = { rows_total };

    ghost exact = { rows_exact };
}

impl KeyFor<LiveRow> for RowKey {
    ghost sought = { λ key. key };

    fn order_of(&self, row: &LiveRow) -> Ordering {
        let key = RowKey {
            stop: row.stop,
            at: row.slot.at,
            trip: row.slot.run.trip,
            day: row.slot.run.day,
            place: row.slot.place,
        };
        key.cmp(self)
    }
}
