//! The departures of all stops in one vector.

ghost use Rattle.std.specs.Prelude.{◌≡◌, [], map, slice_get, unwrap_or, IfOk};
ghost use Rattle.order.specs.Order.{ordered};
ghost use Rattle.stop_index.specs.Index.{departure_cmp};

use crate::NoMemory;
use crate::trip_departure::TripDeparture;
use std::alloc::{AllocError, Global};
use std::marker::Model;

/// Lists of departures, one list after another in one vector. A contract sees the lists.
#[derive(Drop)]
pub(crate) struct FlatLists {
    /// Where each list begins, and where the last ends.
    offsets: Vec<u32>,
    /// What the lists hold.
    departures: Vec<TripDeparture>,
}

impl Model for FlatLists {
    ghost use Rattle.std.specs.Prelude.{List, length};
    ghost use Rattle.stop_index.specs.declared.trip_departure.TripDeparture.{TripDeparture};

    ghost Value = { List (List TripDeparture) };

    ghost use Rattle.stop_index.specs.Flat.{lists_in, AreOffsets};

    ghost view = { λ flat. lists_in flat.offsets.items flat.departures.items };

    ghost invariant = { λ flat. AreOffsets flat.offsets.items (length flat.departures.items) };
}

impl FlatLists {
    /// The list of that number; an empty one past the last.
    pub(crate) fn list(&self, number: u32) -> &[TripDeparture]
        ensures { result.now ≡ unwrap_or (slice_get self.now number) [] }
    {
        let number = number as usize;
        if number + 1 < self.offsets.len() {
            let start = self.offsets[number] as usize;
            let end = self.offsets[number + 1] as usize;
            &self.departures[start..end]
        } else {
            &[]
        }
    }
}

/// A number of departures as an offset; or out of memory, where it has more than 32 bits.
fn offset_of(count: usize) -> Result<u32, NoMemory>
    ensures { IfOk result (λ offset. offset ≡ count) }
{
    if count <= u32::MAX as usize {
        Ok(count as u32)
    } else {
        Err(AllocError)
    }
}

/// The lists, each by time, trip and place, with room for so many departures; or out of memory.
pub(crate) fn flattened(
    alloc: Global,
    lists: Vec<Vec<TripDeparture>>,
    count: u32,
) -> Result<FlatLists, NoMemory>
    ensures { IfOk result (λ flat. flat
        ≡ map (ordered departure_cmp) (map (λ v. v.items) lists.items)) }
{
    let mut offsets = Vec::with_capacity(alloc, lists.len().saturating_add(1))?;
    offsets.push(0)?;
    let mut departures = Vec::with_capacity(alloc, count as usize)?;
    for list in lists {
        let mut list = list;
        list.sort_unstable();
        departures.extend_from_slice(list.as_slice())?;
        offsets.push(offset_of(departures.len())?)?;
    }
    Ok(FlatLists {
        offsets,
        departures,
    })
}
