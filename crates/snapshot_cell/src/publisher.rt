//! The publisher.

ghost use Rattle.std.specs.Prelude.{◌≡◌, ◌∷◌, [], ◌++◌, true, false, IfOk, OnErr};
ghost use Rattle.std.specs.Arc.{arc_value};
ghost use mathlib.Core.List.{IsPrefix};
ghost use Rattle.feed_defs.specs.declared.history.Entry.{Entry};
ghost use Rattle.feed_defs.specs.History.{IsLegal};
ghost use Rattle.board_defs.specs.Views.{StandsFor};
ghost use Rattle.hub_history.specs.declared.item.LogItem.TheVariants.{Accepted, Ended};
ghost use Rattle.hub_history.specs.Told.{history_of, AreOne};

use crate::NoMemory;
use crate::copies::{SnapWriter, show_to_all};
use crate::ending::Ending;
use crate::pass::Pass;
use crate::receipt::Receipt;
use board_parts::HubView;
use hub_history::Author;
use std::alloc::Global;
use std::marker::{Brand, Model};
use std::mem;
use std::sync::{Arc, Wait};

/// Who shows the views of a hub. A contract sees what it published, and the timetables and feeds.
/// It is not dropped: it ends by `close`, or by `abandon`.
pub struct Publisher {
    pub(crate) author: Author,
    pub(crate) writer: Option<SnapWriter>,
}

impl Model for Publisher {
    ghost use Rattle.std.specs.Arc.{arc_value};
    ghost use Rattle.snapshot_cell.specs.Rule.{no_plans};
    ghost use Rattle.snapshot_cell.specs.Seen.{Publishing, Publishes, at_some, AtSome};

    ghost Value = { Publishing };

    ghost view = { λ publisher. record {
      line = publisher.author;
      plans = at_some publisher.writer (λ w. (arc_value w.desk.shown.value.view).plans) no_plans;
    } };

    ghost invariant = { λ publisher. AtSome publisher.writer
        (λ w. Publishes w.desk.shown.value publisher.author) };
}

impl Publisher {
    /// Shows the view, which stands for what was published with the named message at the end, in
    /// one step. Want of memory comes before that step, and then nothing was published. It waits
    /// for those that still read what was shown before, and for memory where the step itself finds
    /// none.
    pub fn put<R: Wait>(
        &mut self,
        rt: &R,
        feed: u32,
        view: Arc<HubView, Global>,
    ) -> Result<Receipt, NoMemory>
        ghost entry: { Entry }
        requires feed { entry.feed ≡ feed }
        requires legal { IsLegal self.old.line.feeds (history_of self.old.line ++ entry ∷ []) }
        requires stands { StandsFor (history_of self.old.line ++ entry ∷ []) (arc_value view) }
        requires plans { (arc_value view).plans ≡ self.old.plans }
        ensures published { IfOk result (λ receipt. self.new.line ≡ receipt) }
        ensures receipt { IfOk result (λ receipt. receipt
            ≡ record self.old.line { log = self.old.line.log ++ Accepted entry ∷ [] }) }
        ensures plans { self.new.plans ≡ self.old.plans }
        ensures kept { OnErr result (self.new ≡ self.old) }
    {
        if !self.author.extend::<Brand>() {
            return Err(NoMemory);
        }
        let Some(writer) = self.writer.take() else {
            unreachable!()
        };
        let line = self.author.line();
        let writer = show_to_all(rt, writer, &view, &line);
        match mem::replace(&mut self.writer, Some(writer)) {
            None => {}
            Some(_) => unreachable!(),
        }
        Ok(Receipt { line })
    }

    /// A receipt of all that was published. It takes no memory.
    pub fn tell(&mut self) -> Receipt
        ensures receipt { result ≡ self.old.line }
        ensures same { self.new ≡ self.old }
    {
        Receipt {
            line: self.author.line(),
        }
    }

    /// The pass now knows all that was published, which begins with all that it knew. It takes no
    /// memory.
    pub fn show(&mut self, pass: &mut Pass)
        requires { AreOne pass.old.line self.old.line }
        ensures whole { pass.new.line ≡ self.old.line }
        ensures begins { IsPrefix pass.old.line.log self.old.line.log }
        ensures reads { pass.new.reads ≡ pass.old.reads }
        ensures shown { pass.new.shown ≡ pass.old.shown }
        ensures held { pass.new.holds ≡ pass.old.holds }
        ensures same { self.new ≡ self.old }
    {
        self.author.shows(&pass.line);
        pass.line = self.author.line();
    }

    /// Marks the end, in one publishing step: nothing is published behind it. Want of memory comes
    /// before that step, and the publisher is gone.
    pub fn close<R: Wait>(self, rt: &R) -> Result<Ending, NoMemory>
        ensures { IfOk result (λ ending. ending
            ≡ record self.line { log = self.line.log ++ Ended ∷ [] }) }
    {
        let Publisher { mut author, writer } = self;
        let Some(writer) = writer else { unreachable!() };
        let Ok(view) = Arc::try_clone(&writer.published().view) else {
            writer.take(rt);
            return Err(NoMemory);
        };
        if !author.end() {
            writer.take(rt);
            return Err(NoMemory);
        }
        let line = author.line();
        let writer = show_to_all(rt, writer, &view, &line);
        Ok(Ending { line, writer })
    }

    /// Ends a publisher of which nobody needs the history: nothing more is published. It waits for
    /// those that still read the copies, and takes no memory.
    pub fn abandon<R: Wait>(self, rt: &R) {
        let Publisher { author: _, writer } = self;
        let Some(writer) = writer else { unreachable!() };
        writer.take(rt);
    }
}
