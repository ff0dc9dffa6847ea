//! The two copies.

ghost use Rattle.std.specs.Prelude.{◌≡◌, IfOk, IfErr};
ghost use Rattle.std.specs.Arc.{arc_value};
ghost use Rattle.left_right.specs.Sides.{view as client_view};
ghost use Rattle.board_defs.specs.Views.{StandsFor};
ghost use Rattle.hub_history.specs.Told.{history_of, AreOne};
ghost use Rattle.snapshot_cell.specs.Rule.{knowing};

use crate::rule::{Puts, Rule};
use crate::shown::{Shown, View};
use board_parts::HubView;
use hub_history::Line;
use left_right::reader::Reader;
use left_right::writer::Writer;
use std::alloc::Global;
use std::sync::{Arc, Wait};

/// Who looks at the copies.
pub(crate) type SnapReader = Reader<Shown, View, Rule, Global>;

/// Who changes them.
pub(crate) type SnapWriter = Writer<Shown, Shown, View, Rule, Global>;

/// Tries once to show the view with that history to all who look from now on. It waits for those
/// that still read what was shown before. Where no memory is found the writer is given back as the
/// error, and still shows what it showed.
pub(crate) fn try_show<R: Wait>(
    rt: &R,
    first: SnapWriter,
    shared: &Arc<HubView, Global>,
    line: &Line,
) -> Result<SnapWriter, SnapWriter>
    requires stands { StandsFor (history_of line.now) (arc_value shared.now) }
    requires plans { (arc_value first.desk.shown.value.view).plans ≡ (arc_value shared.now).plans }
    requires hub { AreOne line.now first.desk.shown.value.line }
    ensures line { IfOk result (λ writer. writer.desk.shown.value.line ≡ line.now) }
    ensures view { IfOk result (λ writer. arc_value writer.desk.shown.value.view
        ≡ arc_value shared.now) }
    ensures place { IfOk result (λ writer. client_view writer.desk.place
        ≡ knowing writer.desk.shown.value (client_view first.desk.place)) }
    ensures kept { IfErr result (λ writer. writer.desk.shown.value ≡ first.desk.shown.value) }
    ensures stays { IfErr result (λ writer. client_view writer.desk.place
        ≡ client_view first.desk.place) }
{
    let mut writer = first;
    let Ok(view) = Arc::try_clone(shared) else {
        return Err(writer);
    };
    let operation = Shown {
        view,
        line: line.again(),
    };
    if let Err(_lost) = writer.append(operation) {
        return Err(writer);
    }
    let (next, answer) = writer.publish_as::<Puts, R>(rt);
    match answer {
        Ok(()) => Ok(next),
        Err(_) => Err(next),
    }
}

/// Shows the view with that history to all who look from now on. It tries again where no memory is
/// found, and waits for those that still read what was shown before.
pub(crate) fn show_to_all<R: Wait>(
    rt: &R,
    first: SnapWriter,
    shared: &Arc<HubView, Global>,
    line: &Line,
) -> SnapWriter
    requires stands { StandsFor (history_of line.now) (arc_value shared.now) }
    requires plans { (arc_value first.desk.shown.value.view).plans ≡ (arc_value shared.now).plans }
    requires hub { AreOne line.now first.desk.shown.value.line }
    ensures line { result.desk.shown.value.line ≡ line.now }
    ensures view { arc_value result.desk.shown.value.view ≡ arc_value shared.now }
    ensures place { client_view result.desk.place
        ≡ knowing result.desk.shown.value (client_view first.desk.place) }
{
    let mut writer = first;
    for _ in rt.forever() {
        match try_show(rt, writer, shared, line) {
            Ok(shown) => return shown,
            Err(kept) => writer = kept,
        }
    }
    unreachable!()
}
