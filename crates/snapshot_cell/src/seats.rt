//! Opening: a publisher with its passes.

ghost use Rattle.std.specs.Prelude.{◌≡◌, ◌≤◌, [], length, vec_len, IfOk, OnOk};
ghost use Rattle.std.specs.Arc.{arc_value};
ghost use Rattle.std.specs.List.{All};
ghost use Rattle.left_right.specs.Sides.{view as client_view};
ghost use Rattle.board_defs.specs.Views.{StandsFor};
ghost use Rattle.hub_history.specs.Told.{history_of};
ghost use Rattle.snapshot_cell.specs.Rule.{knowing};
ghost use Rattle.snapshot_cell.specs.Seen.{Knows, fresh_pass};

use crate::NoMemory;
use crate::copies::{SnapWriter, try_show};
use crate::opening::Snapshots;
use crate::pass::Pass;
use crate::publisher::Publisher;
use crate::rule::Tells;
use crate::shown::Shown;
use board_parts::HubView;
use hub_history::{Author, Line};
use left_right::writer::Writer;
use std::alloc::Global;
use std::sync::{Arc, Wait};

/// A publisher that shows the view of a hub that accepted nothing, and so many passes with that
/// view, 1 to 128; or want of memory.
pub fn snapshots<R: Wait>(
    alloc: Global,
    rt: &R,
    view: Arc<HubView, Global>,
    readers: u32,
) -> Result<Snapshots, NoMemory>
    requires stands { StandsFor [] (arc_value view) }
    requires some { 1 ≤ readers }
    requires few { readers ≤ 128 }
    ensures log { IfOk result (λ all. all.publisher.line.log ≡ []) }
    ensures feeds { IfOk result (λ all. all.publisher.line.feeds
        ≡ length (arc_value view).plans.feeds) }
    ensures plans { IfOk result (λ all. all.publisher.plans ≡ (arc_value view).plans) }
    ensures count { IfOk result (λ all. vec_len all.passes ≡ readers) }
    ensures passes { IfOk result (λ all. All
        (λ pass. pass ≡ fresh_pass all.publisher.line (arc_value view)) all.passes.items) }
{
    let Some(author) = Author::open(feeds_of(&view)) else {
        return Err(NoMemory);
    };
    let line = author.line();
    let mut writer = copies(alloc, rt, &view, &line, readers)?;
    match passes_at(alloc, &mut writer, &view, &line, readers) {
        Ok(passes) => {
            let publisher = Publisher {
                author,
                writer: Some(writer),
            };
            Ok(Snapshots { publisher, passes })
        }
        Err(error) => {
            writer.take(rt);
            Err(error)
        }
    }
}

/// How many feeds the hub has.
fn feeds_of(view: &HubView) -> u32
    ensures { result ≡ length view.now.plans.feeds }
{
    view.sound();
    view.plans().feeds().len() as u32
}

/// What the copies hold at first.
fn shown_of(view: &Arc<HubView, Global>, line: &Line) -> Result<Shown, NoMemory>
    ensures view { IfOk result (λ shown. arc_value shown.view ≡ arc_value view.now) }
    ensures line { IfOk result (λ shown. shown.line ≡ line.now) }
{
    Ok(Shown {
        view: Arc::try_clone(view)?,
        line: line.again(),
    })
}

/// The two copies, which show the view, with room for so many readers; or want of memory. Nobody
/// reads yet, so there is none to be waited for.
fn copies<R: Wait>(
    alloc: Global,
    rt: &R,
    view: &Arc<HubView, Global>,
    line: &Line,
    readers: u32,
) -> Result<SnapWriter, NoMemory>
    requires stands { StandsFor (history_of line.now) (arc_value view.now) }
    requires some { 1 ≤ readers }
    requires few { readers ≤ 128 }
    ensures line { IfOk result (λ writer. writer.desk.shown.value.line ≡ line.now) }
    ensures view { IfOk result (λ writer. arc_value writer.desk.shown.value.view
        ≡ arc_value view.now) }
    ensures knows { IfOk result (λ writer. Knows (client_view writer.desk.place)
        (arc_value view.now) line.now) }
{
    let first = shown_of(view, line)?;
    let second = shown_of(view, line)?;
    let writer = Writer::new(alloc, first, second, readers as usize)?;
    match try_show(rt, writer, view, line) {
        Ok(writer) => Ok(writer),
        Err(writer) => {
            writer.take(rt);
            Err(NoMemory)
        }
    }
}

/// So many passes.
fn passes_at(
    alloc: Global,
    writer: &mut SnapWriter,
    view: &Arc<HubView, Global>,
    line: &Line,
    readers: u32,
) -> Result<Vec<Pass>, NoMemory>
    requires { Knows (client_view writer.old.desk.place) (arc_value view.now) line.now }
    ensures shown { writer.new.desk.shown ≡ writer.old.desk.shown }
    ensures count { IfOk result (λ passes. vec_len passes ≡ readers) }
    ensures passes { IfOk result (λ passes. All
        (λ pass. pass ≡ fresh_pass line.now (arc_value view.now)) passes.items) }
{
    let mut passes = Vec::with_capacity(alloc, readers as usize)?;
    for _ in 0..readers {
        passes.push(pass_at(writer, view, line)?)?;
    }
    Ok(passes)
}

/// A pass that the writer tells which hub it is at.
fn pass_at(
    writer: &mut SnapWriter,
    view: &Arc<HubView, Global>,
    line: &Line,
) -> Result<Pass, NoMemory>
    requires { Knows (client_view writer.old.desk.place) (arc_value view.now) line.now }
    ensures shown { writer.new.desk.shown ≡ writer.old.desk.shown }
    ensures place { client_view writer.new.desk.place ≡ client_view writer.old.desk.place }
    ensures pass { IfOk result (λ pass. pass ≡ fresh_pass line.now (arc_value view.now)) }
{
    let first = Arc::try_clone(view)?;
    let mut reader = writer.factory().reader()?;
    let note = writer.tell::<Tells>();
    reader.learn::<Tells>(note);
    Ok(Pass {
        reader: Some(reader),
        line: line.again(),
        found: None,
        first,
    })
}
