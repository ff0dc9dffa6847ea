//! A hub on one thread that keeps its history.

ghost use Rattle.std.specs.Prelude.{◌≡◌, ℕ, ◌<◌, ◌+◌, [], length, true, false, Ok, IfOk, IfErr};
ghost use Rattle.std.specs.Arc.{arc_value};
ghost use Rattle.feed_defs.specs.History.{IsLegal, WereRead, is_rising, stamps_of};
ghost use Rattle.sched_types.specs.Schedules.{AreSchedules};
ghost use Rattle.board_defs.specs.Views.{StandsFor, feed_at, hub_first};
ghost use Rattle.board_parts.specs.Looks.{Looked};
ghost use Rattle.hub_state.specs.Replay.{Offers};

use crate::NoMemory;
use crate::looks::Looks;
use crate::state::HubCore;
use board_parts::{HubView, Oracle};
use feed_defs::Entry;
use hub_core::{Refusal, check};
use rt_types::Copied;
use sched_types::Plans;
use std::alloc::Global;
use std::marker::Model;
use std::sync::Arc;

/// A hub over timetables that keeps all that it accepted. A contract sees it as `Replayed`.
#[derive(Drop)]
pub struct ReplayHub {
    core: HubCore,
    history: Vec<Entry>,
    looks: Looks,
}

impl Model for ReplayHub {
    ghost use Rattle.hub_state.specs.Replay.{Replayed, KeepsHistory};

    ghost Value = { Replayed };

    ghost view = { λ hub. record {
      history = hub.history.items;
      shown = hub.core;
      reads = hub.looks;
    } };

    ghost invariant = { λ hub. KeepsHistory hub.history.items hub.core };
}

impl ReplayHub {
    /// A hub with those timetables and feeds that accepted nothing and was never looked at; or want
    /// of memory.
    pub fn new(alloc: Global, plans: Arc<Plans>) -> Result<ReplayHub, NoMemory>
        ensures { IfOk result (λ hub. hub
            ≡ record { history = []; shown = hub_first (arc_value plans); reads = 0 }) }
    {
        Ok(ReplayHub {
            core: HubCore::new(alloc, plans)?,
            history: Vec::new(alloc),
            looks: Looks::none(),
        })
    }

    /// Takes the message of the bytes for the feed of that number, and answers how many messages
    /// the hub has accepted with it; or refuses it, and stays as it was.
    pub fn offer(&mut self, feed: u32, bytes: &[u8]) -> Result<u64, Refusal>
        requires { feed < length self.old.shown.plans.feeds }
        ensures offered { Offers feed bytes.now self.old self.new result }
        ensures plans { self.new.shown.plans ≡ self.old.shown.plans }
        ensures reads { self.new.reads ≡ self.old.reads }
        ensures legal { IsLegal (length self.new.shown.plans.feeds) self.new.history }
        ensures stands { StandsFor self.new.history self.new.shown }
    {
        let alloc = *self.history.allocator();
        let last = last_stamp(self.core.view(), feed);
        let message = check(alloc, last, bytes)?;
        let next = self.core.prepare(alloc, feed, message.copy()?)?;
        self.history.push(Entry { feed, message })?;
        self.core.commit(next);
        Ok(self.history.len() as u64)
    }

    /// Does nothing; its contract tells what is true of every such hub.
    pub fn sound(&self)
        ensures legal { IsLegal (length self.now.shown.plans.feeds) self.now.history }
        ensures read { ∥ WereRead self.now.history ∥₁ }
        ensures stands { StandsFor self.now.history self.now.shown }
        ensures plans { AreSchedules self.now.shown.plans }
    {
        self.core.view().sound();
    }
}

impl Oracle for ReplayHub {
    ghost use Rattle.std.specs.Prelude.{true, false};

    ghost history = { λ hub. hub.history };

    ghost plans = { λ hub. hub.shown.plans };

    ghost reads = { λ hub. hub.reads };

    ghost shown = { λ hub. hub.shown };

    ghost holds = { λ _. false };

    ghost steady = { λ _. true };

    /// It always answers, and takes no memory.
    fn look(&mut self) -> Result<u64, NoMemory>
        ensures looked { Looked self.old.history self.new.history self.old.shown self.new.shown
            self.old.reads self.new.reads true result }
        ensures rising { (feed : ℕ) → is_rising (stamps_of feed self.new.history) ≡ true }
        ensures plans { self.new.shown.plans ≡ self.old.shown.plans }
        ensures held { IfErr result (λ none. false ≡ false) }
        ensures steady { true ≡ true }
        ensures answers { result ≡ Ok (length self.old.history) }
        ensures same { self.new ≡ record self.old { reads = self.old.reads + 1 } }
    {
        self.looks.tick();
        self.sound();
        Ok(self.core.view().entries())
    }

    fn view(&self) -> &HubView {
        self.core.view()
    }

    /// Does nothing: the hub itself keeps its view.
    fn release(&mut self) {}
}

/// The stamp of the last message of the feed of that number, in seconds since 1970; 0 if it sent
/// none.
fn last_stamp(view: &HubView, feed: u32) -> u64
    requires { feed < length view.now.plans.feeds }
    ensures { result ≡ (feed_at view.now feed).fold.stamp }
{
    view.sound();
    view.feed(feed).stamp()
}
