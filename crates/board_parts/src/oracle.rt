//! Where readers get the newest view of a hub.

ghost use Rattle.std.specs.Prelude.{◌≡◌, ℕ, List, Bool, true, false, IfErr};

use crate::{HubView, NoMemory};

/// Where the newest view of a hub is looked up. Its meanings, which contracts alone see, are the
/// history that was published up to the last look, the timetables and feeds, how many looks there
/// were, the view that is shown, whether one is held that a look found, and whether the history
/// stands still.
pub trait Oracle {
    ghost use Rattle.std.specs.Prelude.{◌≡◌, ℕ, List, Bool, true, false, IfErr};
    ghost use Rattle.feed_defs.specs.declared.history.Entry.{Entry};
    ghost use Rattle.feed_defs.specs.History.{is_rising, stamps_of};
    ghost use Rattle.sched_types.specs.Schedules.{Schedules};
    ghost use Rattle.board_defs.specs.Views.{HubKept};
    ghost use Rattle.board_parts.specs.Looks.{Looked};

    ghost history: { Self → List Entry };

    ghost plans: { Self → Schedules };

    ghost reads: { Self → ℕ };

    ghost shown: { Self → HubKept };

    ghost holds: { Self → Bool };

    ghost steady: { Self → Bool };

    /// Looks up the newest view, and answers how many messages it stands for; or want of memory,
    /// which leaves the view that is shown. In the history that it leaves the stamps of each feed
    /// strictly rise.
    fn look(&mut self) -> Result<u64, NoMemory>
        ensures looked { Looked (history self.old) (history self.new) (shown self.old)
            (shown self.new) (reads self.old) (reads self.new) (steady self.old) result }
        ensures rising { (feed : ℕ) → is_rising (stamps_of feed (history self.new)) ≡ true }
        ensures plans { plans self.new ≡ plans self.old }
        ensures held { IfErr result (λ none. holds self.new ≡ holds self.old) }
        ensures steady { steady self.new ≡ steady self.old };

    /// The view that the last look found; where that was released, one of the same timetables and
    /// feeds.
    fn view(&self) -> &HubView
        ensures view { result.now ≡ shown self.now }
        ensures plans { result.now.plans ≡ plans self.now };

    /// Lets go of the view that the last look found, so that nobody who waits keeps in memory what
    /// is out of date. What is known of the history stays.
    fn release(&mut self)
        ensures history { history self.new ≡ history self.old }
        ensures plans { plans self.new ≡ plans self.old }
        ensures reads { reads self.new ≡ reads self.old }
        ensures let_go { holds self.new ≡ false }
        ensures steady { steady self.new ≡ steady self.old };
}
