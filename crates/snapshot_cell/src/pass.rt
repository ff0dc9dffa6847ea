//! Passes.

ghost use Rattle.std.specs.Prelude.{◌≡◌, ◌⊎◌, ℕ, true, false, IfErr};
ghost use mathlib.Core.List.{IsPrefix};
ghost use Rattle.feed_defs.specs.History.{is_rising, stamps_of};
ghost use Rattle.board_parts.specs.Looks.{Looked};
ghost use Rattle.hub_history.specs.Told.{history_of, AreOne};

use crate::NoMemory;
use crate::copies::SnapReader;
use crate::ending::Ending;
use crate::glance::{Glance, look_on};
use crate::receipt::Receipt;
use board_parts::{HubView, Oracle};
use hub_history::Line;
use std::alloc::Global;
use std::marker::Model;
use std::sync::Arc;

/// A reader's pass. A contract sees what it knows of the history, how often it looked, the view
/// that it shows, and whether that is one that a look found.
#[derive(Drop)]
pub struct Pass {
    pub(crate) reader: Option<SnapReader>,
    pub(crate) line: Line,
    // What the last look found, until it is let go of.
    pub(crate) found: Option<Arc<HubView, Global>>,
    // That of the hub before its first message, which holds no entity.
    pub(crate) first: Arc<HubView, Global>,
}

impl Model for Pass {
    ghost use Rattle.std.specs.Prelude.{◌≡◌, is_some, unwrap_or, IfSome};
    ghost use Rattle.std.specs.Arc.{arc_value};
    ghost use Rattle.left_right.specs.Sides as sides;
    ghost use Rattle.snapshot_cell.specs.Seen.{PassSeen, Knows, at_some, AtSome};

    ghost Value = { PassSeen };

    ghost view = { λ pass. record {
      line = pass.line;
      reads = at_some pass.reader (λ reader. (sides.view reader.place).reads) 0;
      shown = arc_value (unwrap_or pass.found pass.first);
      holds = is_some pass.found;
    } };

    ghost invariant = { λ pass. AtSome pass.reader
        (λ reader. Knows (sides.view reader.place) (arc_value pass.first) pass.line)
        × IfSome pass.found (λ view. (arc_value view).plans ≡ (arc_value pass.first).plans) };
}

impl Pass {
    /// Knows what the receipt knows, if that is more. It takes no memory, and the view stays.
    pub fn learn(&mut self, receipt: &Receipt)
        requires { AreOne receipt.now self.old.line }
        ensures one { (self.new.line ≡ self.old.line) ⊎ (self.new.line ≡ receipt.now) }
        ensures begins { IsPrefix self.old.line.log self.new.line.log }
        ensures receipt_begins { IsPrefix receipt.now.log self.new.line.log }
        ensures reads { self.new.reads ≡ self.old.reads }
        ensures shown { self.new.shown ≡ self.old.shown }
        ensures held { self.new.holds ≡ self.old.holds }
    {
        self.line.learn(&receipt.line);
    }

    /// Knows the whole of the ended history, which begins with all that it knew. It takes no
    /// memory, and the view stays.
    pub fn finish(&mut self, ending: &Ending)
        requires { AreOne ending.now self.old.line }
        ensures whole { self.new.line ≡ ending.now }
        ensures begins { IsPrefix self.old.line.log ending.now.log }
        ensures reads { self.new.reads ≡ self.old.reads }
        ensures shown { self.new.shown ≡ self.old.shown }
        ensures held { self.new.holds ≡ self.old.holds }
    {
        self.line.finish(&ending.line);
    }

    /// Does nothing; its contract tells what is true of the history that every pass knows.
    fn sound(&self)
        ensures { (feed : ℕ) → is_rising (stamps_of feed (history_of self.now.line)) ≡ true }
    {
        self.line.sound();
    }

    /// A look, in the words of `Oracle`.
    fn take_look(&mut self) -> Result<u64, NoMemory>
        ensures looked { Looked (history_of self.old.line) (history_of self.new.line)
            self.old.shown self.new.shown self.old.reads self.new.reads false result }
        ensures hub { AreOne self.new.line self.old.line }
        ensures plans { self.new.shown.plans ≡ self.old.shown.plans }
        ensures held { IfErr result (λ none. self.new.holds ≡ self.old.holds) }
    {
        let Some(reader) = self.reader.take() else {
            unreachable!()
        };
        let (reader, found) = look_on(reader, &self.line);
        self.reader = Some(reader);
        match found {
            Glance::Found(line, view) => {
                let number = line.number();
                self.line = line;
                self.found = Some(view);
                Ok(number)
            }
            Glance::Behind => Err(NoMemory),
            Glance::NoMemory => Err(NoMemory),
        }
    }
}

impl Oracle for Pass {
    ghost use Rattle.std.specs.Prelude.{false};
    ghost use Rattle.hub_history.specs.Told.{history_of};

    ghost history = { λ pass. history_of pass.line };

    ghost plans = { λ pass. pass.shown.plans };

    ghost reads = { λ pass. pass.reads };

    ghost shown = { λ pass. pass.shown };

    ghost holds = { λ pass. pass.holds };

    ghost steady = { λ _. false };

    /// A look stays at the pass's own hub.
    fn look(&mut self) -> Result<u64, NoMemory>
        ensures looked { Looked (history_of self.old.line) (history_of self.new.line)
            self.old.shown self.new.shown self.old.reads self.new.reads false result }
        ensures rising { (feed : ℕ)
            → is_rising (stamps_of feed (history_of self.new.line)) ≡ true }
        ensures plans { self.new.shown.plans ≡ self.old.shown.plans }
        ensures held { IfErr result (λ none. self.new.holds ≡ self.old.holds) }
        ensures steady { false ≡ false }
        ensures hub { AreOne self.new.line self.old.line }
    {
        let found = self.take_look();
        self.sound();
        found
    }

    fn view(&self) -> &HubView {
        match &self.found {
            Some(view) => view,
            None => &self.first,
        }
    }

    /// From now on the view is that of the hub before its first message.
    fn release(&mut self)
        ensures history { history_of self.new.line ≡ history_of self.old.line }
        ensures plans { self.new.shown.plans ≡ self.old.shown.plans }
        ensures reads { self.new.reads ≡ self.old.reads }
        ensures let_go { self.new.holds ≡ false }
        ensures steady { false ≡ false }
        ensures line { self.new.line ≡ self.old.line }
    {
        self.found = None;
    }
}
