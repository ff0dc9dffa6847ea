//! One look at the copies.

ghost use Rattle.std.specs.Prelude.{◌≡◌, true, length, MatchResult};
ghost use Rattle.left_right.specs.Sides.{view as client_view};
ghost use Rattle.hub_history.specs.Told.{AreOne};
ghost use Rattle.snapshot_cell.specs.Rule.{Looked};
ghost use Rattle.snapshot_cell.specs.Seen.{Copies, Glances};

use crate::copies::SnapReader;
use crate::rule::{Behind, Looks, Rule};
use crate::shown::{Shown, View};
use board_parts::HubView;
use hub_history::Line;
use left_right::reader::Reading;
use std::alloc::Global;
use std::marker::Brand;
use std::sync::Arc;

/// What a look finds.
#[derive(Drop)]
pub(crate) enum Glance {
    /// A history, with the view that stands for it.
    Found(Line, Arc<HubView, Global>),
    /// Less than is known already.
    Behind,
    /// No memory.
    NoMemory,
}

/// Looks once, on from what is known.
pub(crate) fn look_once(reader: SnapReader, line: &Line) -> (SnapReader, Glance)
    requires { (client_view reader.place).knows ≡ true
        × AreOne (client_view reader.place).line line.now }
    ensures { Glances (client_view reader.place) (client_view result.0.place) line.now result.1 }
{
    match enter::<Brand>(reader, line) {
        Ok(reading) => {
            let found = found_in(reading.get(), line);
            (reading.leave(), found)
        }
        Err(reader) => (reader, Glance::NoMemory),
    }
}

/// Enters the copies.
fn enter<B: Behind>(
    reader: SnapReader,
    line: &Line,
) -> Result<Reading<Shown, View, Rule, Global>, SnapReader>
    requires { B.items ≡ length line.now.log }
    ensures { MatchResult result
        (λ reading. Looked (length line.now.log) (client_view reader.place) reading.part.value
        reading.part.value (client_view reading.place))
        (λ back. client_view back.place ≡ client_view reader.place) }
{
    reader.enter_as::<Looks<B>>()
}

/// What the copies show, where that is not behind what is known.
fn found_in(shown: &Shown, line: &Line) -> Glance
    requires { AreOne line.now shown.now.line }
    ensures { Copies shown.now line.now result }
{
    if shown.line.is_behind(line) {
        return Glance::Behind;
    }
    let mut both = shown.line.again();
    both.learn(line);
    match Arc::try_clone(&shown.view) {
        Ok(view) => Glance::Found(both, view),
        Err(_) => Glance::NoMemory,
    }
}

/// Looks until what is found is not behind what is known. The first look does: whoever knows of a
/// message learned it behind the step that showed it.
pub(crate) fn look_on(reader: SnapReader, line: &Line) -> (SnapReader, Glance)
    requires { (client_view reader.place).knows ≡ true
        × AreOne (client_view reader.place).line line.now }
    ensures { Glances (client_view reader.place) (client_view result.0.place) line.now result.1 }
{
    let mut place = reader;
    for _ in 0..u64::MAX {
        let (next, found) = look_once(place, line);
        place = next;
        match found {
            Glance::Behind => {}
            Glance::Found(line, view) => return (place, Glance::Found(line, view)),
            Glance::NoMemory => return (place, Glance::NoMemory),
        }
    }
    (place, Glance::Behind)
}
