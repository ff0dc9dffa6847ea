//! The departures at a stop between two instants, one after another.

ghost use Rattle.std.specs.Prelude.{◌≡◌, if◌then◌else◌, Some, None};
ghost use Rattle.std.specs.Iterator.{YieldsFirst, item_count};
ghost use Rattle.run_overlay.specs.Sought.{is_ahead, slots_ahead, AreAhead};

use crate::row::LiveRow;
use crate::slot::LiveSlot;
use shared_list::Iter;
use std::marker::Model;

/// Departures at a stop, in order of the expected instant, the trip, the day and the place. A
/// contract sees the list of those that are left.
#[derive(Drop)]
pub struct AtStop<'a> {
    /// Departures of this stop and of later ones.
    rows: Iter<'a, LiveRow>,
    stop: u32,
    /// The instant before which they are expected, in seconds since 1970.
    end: i64,
}

impl<'a> Model for AtStop<'a> {
    ghost use Rattle.std.specs.Prelude.{List};
    ghost use Rattle.run_overlay.specs.declared.slot.LiveSlot.{LiveSlot};

    ghost Value = { List LiveSlot };

    ghost use Rattle.run_overlay.specs.Sought.{slots_ahead, AreAhead};

    ghost view = { λ it. slots_ahead it.stop it.end it.rows };

    ghost invariant = { λ it. AreAhead it.stop it.rows };
}

impl<'a> AtStop<'a> {
    /// Those of the departures that are at the stop and are expected before `end`. None of them is
    /// at a stop with a lower number.
    pub(crate) fn among(rows: Iter<'a, LiveRow>, stop: u32, end: i64) -> AtStop<'a>
        requires { AreAhead stop rows }
        ensures { result ≡ slots_ahead stop end rows.entry }
    {
        AtStop { rows, stop, end }
    }
}

/// The departure, if it is at the stop and is expected before `end`.
fn slot_ahead(row: &LiveRow, stop: u32, end: i64) -> Option<LiveSlot>
    ensures { result ≡ if is_ahead stop end row.now then Some row.now.slot else None }
{
    if row.stop == stop && row.slot.at < end {
        Some(row.slot)
    } else {
        None
    }
}

impl<'a> Iterator for AtStop<'a> {
    type Item = LiveSlot;

    ghost next_gives = { YieldsFirst (λ left. left) };

    ghost remaining = { item_count (λ left. left) };

    fn next(&mut self) -> Option<LiveSlot> {
        let row = self.rows.next()?;
        slot_ahead(row, self.stop, self.end)
    }
}
