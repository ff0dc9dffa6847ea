//! Which updates count for added trips.

ghost use Rattle.std.specs.Prelude.{◌≡◌, IfOk};
ghost use Rattle.std.specs.List.Sorted.{IsSorted};
ghost use Rattle.board_defs.specs.Choice as choosing;
ghost use Rattle.board_added.specs.Added.{key_cmp, full_cmp, IsInOrder};

use crate::NoMemory;
use board_parts::{Update, text_of};
use rt_types::TripRef;
use std::alloc::Global;
use std::cmp::Ordering;

/// By the trip_id, and then by the start_date.
fn trip_order(a: &TripRef, b: &TripRef) -> Ordering
    ensures { result ≡ key_cmp a.now b.now }
{
    text_of(&a.trip_id)
        .cmp(text_of(&b.trip_id))
        .then(text_of(&a.start_date).cmp(text_of(&b.start_date)))
}

/// By their trips, and of one trip by how they count.
fn order(a: &Update<'_>, b: &Update<'_>) -> Ordering
    ensures { result ≡ full_cmp a.now b.now }
{
    trip_order(&a.trip_update().trip, &b.trip_update().trip).then(a.order(b))
}

/// The same updates again; or want of memory.
fn copies<'a>(alloc: Global, all: &[Update<'a>]) -> Result<Vec<Update<'a>>, NoMemory>
    ensures { IfOk result (λ copies. copies.items ≡ all.entry.now) }
{
    let mut copies = Vec::with_capacity(alloc, all.len())?;
    for update in all {
        copies.push(update.again())?;
    }
    Ok(copies)
}

/// The updates in order of their trips, those of one trip by how they count; or want of memory.
pub(crate) fn in_order<'a>(alloc: Global, all: &[Update<'a>]) -> Result<Vec<Update<'a>>, NoMemory>
    ensures { IfOk result (λ sorted. IsInOrder all.entry.now sorted.items) }
{
    let mut sorted = copies(alloc, all)?;
    sorted.sort_by(|a, b| order(a, b))?;
    Ok(sorted)
}

/// Whether another update of the same trip counts more, of updates in order: the last one that goes
/// up to this trip tells, for where it isn't of this trip, it goes before.
pub(crate) fn is_outdone(sorted: &[Update<'_>], update: &Update<'_>) -> bool
    requires { IsSorted full_cmp sorted.now }
    ensures { result ≡ choosing.is_outdone sorted.now update.now }
{
    let trip = &update.trip_update().trip;
    let count = sorted.partition_point(|other| trip_order(&other.trip_update().trip, trip).is_le());
    match sorted[..count].last() {
        Some(last) => order(last, update).is_gt(),
        None => false,
    }
}
