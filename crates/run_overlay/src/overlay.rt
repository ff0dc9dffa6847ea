//! The overlay of a feed.

ghost use Rattle.std.specs.Prelude.{◌≡◌, ◌+◌, ◌*◌, ◌≤◌, List, [], length, map, IfOk};
ghost use Rattle.std.specs.Option.{option_map};
ghost use Rattle.feed_defs.specs.History.{Change, entities_after};
ghost use Rattle.sched_types.specs.Timetable.{Timetable};
ghost use Rattle.board_defs.specs.Choice.{chosen};
ghost use Rattle.run_overlay.specs.Changing.{AreIdChanges, touched_runs};
ghost use Rattle.run_overlay.specs.Kept.{chosen_in, no_overlay, overlay_of, slots_in, told_update, IsTable};
ghost use Rattle.run_overlay.specs.Live.{live_between};
ghost use Rattle.run_overlay.specs.Named.{named_by, IsAfter};
ghost use Rattle.run_overlay.specs.Told.{told};
ghost use Rattle.run_overlay.specs.Updates.{updates_of};

use crate::NoMemory;
use crate::at_stop::AtStop;
use crate::hints::Hints;
use crate::id_changes::{IdChange, changes_of_ids, changes_of_table};
use crate::live_lists::LiveLists;
use crate::mention_lists::MentionLists;
use crate::message_ids::MessageIds;
use crate::on_threads::{changes_on, turns_on};
use crate::row::RowKey;
use crate::turns::{touched_runs, turns_of};
use delay_rule::Steps;
use entity_table::{SharedStored, Table};
use rt_types::{FeedMessage, Text};
use sched_types::{Plan, Run};
use shared_list::Iter;
use std::alloc::Global;
use std::marker::Model;
use std::sync::ledger::Ledger;
use std::thread::Threads;

/// The update that counts for a run.
#[derive(Clone, Copy)]
pub struct Chosen<'a> {
    /// The id of its entity.
    pub id: &'a Text,
    /// Its stamp, in seconds since 1970.
    pub stamp: u64,
}

/// What the updates of a feed come to on a timetable. A contract sees it as `FeedOverlay`, and it
/// never changes.
#[derive(Drop)]
pub struct Overlay {
    mentions: MentionLists,
    live: LiveLists,
}

impl Model for Overlay {
    ghost use Rattle.run_overlay.specs.Kept.{FeedOverlay};

    ghost Value = { FeedOverlay };

    ghost view = { λ overlay. record { mentions = overlay.mentions; live = overlay.live } };
}

impl Overlay {
    /// The overlay of a feed that holds nothing, whatever the timetable. It takes no memory.
    pub fn empty(alloc: Global) -> Overlay
        ensures kept { result ≡ no_overlay }
        ensures every { (t : Timetable) → result ≡ overlay_of t [] }
    {
        Overlay {
            mentions: MentionLists::empty(alloc),
            live: LiveLists::empty(alloc),
        }
    }

    /// The overlay of a table; or out of memory. A run is walked where an update counts for it, so
    /// that no more steps are added than the table has entities.
    pub fn build<L: Ledger>(
        alloc: Global,
        plan: &Plan,
        table: &Table,
        steps: &mut Steps<L>,
    ) -> Result<Overlay, NoMemory>
        ensures overlay { IfOk result (λ overlay. overlay ≡ overlay_of plan.now table.now) }
        ensures few { steps.new ≤ steps.old + length table.now }
    {
        let _all = table.iter();
        let ids = changes_of_table(alloc, plan, table)?;
        let none = Overlay::empty(alloc);
        none.after(alloc, plan, table, ids.as_slice(), steps)
    }

    /// The overlay of a table; or out of memory. It is what [`Overlay::build`] makes, but updates
    /// are matched and runs are walked on as many threads as the machine has processors. It is
    /// worth the threads for tables of some thousand entities.
    pub fn build_on(
        rt: &(impl Threads + Sync),
        alloc: Global,
        plan: &Plan,
        table: &Table,
    ) -> Result<Overlay, NoMemory>
        ensures { IfOk result (λ overlay. overlay ≡ overlay_of plan.now table.now) }
    {
        let _all = table.iter();
        let none = Overlay::empty(alloc);
        let changes = changes_on(rt, alloc, plan, table)?;
        let ids = changes.as_slice();
        let mentions = none.mentions.after(alloc, table, ids)?;
        let runs = touched_runs(alloc, ids)?;
        let candidates = mentions.candidates();
        let turns = turns_on(rt, alloc, plan, table, candidates, runs.as_slice())?;
        let live = none.live.after(alloc, turns)?;
        Ok(Overlay { mentions, live })
    }

    /// The overlay after a message, which is that of the table after it: what [`Overlay::build`]
    /// makes of that table; or out of memory. This is the overlay of the table before the message,
    /// and stays as it is. Up to two steps are added for each entity of the message.
    pub fn change<L: Ledger>(
        &self,
        alloc: Global,
        plan: &Plan,
        table: &Table,
        message: &FeedMessage,
        steps: &mut Steps<L>,
    ) -> Result<Overlay, NoMemory>
        requires before { (old : List Change) × IsTable old × (self.now ≡ overlay_of plan.now old)
            × (table.now ≡ entities_after message.now old) }
        ensures overlay { IfOk result (λ next. next ≡ overlay_of plan.now table.now) }
        ensures few { steps.new ≤ steps.old + 2 * length message.now.entity }
    {
        let ids = self.ids_of(alloc, message)?;
        self.change_by(alloc, plan, table, ids, steps)
    }

    /// The ids that a message names, as [`Overlay::change_by`] takes them; or out of memory. So who
    /// moves the entities of the message into the table need not keep the message.
    pub fn ids_of(&self, alloc: Global, message: &FeedMessage) -> Result<MessageIds, NoMemory>
        ensures { IfOk result (λ ids. ids ≡ named_by self.now message.now) }
    {
        MessageIds::of(alloc, self.mentions.links(), message)
    }

    /// What [`Overlay::change`] gives, by the ids that the message names.
    pub fn change_by<L: Ledger>(
        &self,
        alloc: Global,
        plan: &Plan,
        table: &Table,
        ids: MessageIds,
        steps: &mut Steps<L>,
    ) -> Result<Overlay, NoMemory>
        requires { IsAfter plan.now self.now table.now ids }
        ensures overlay { IfOk result (λ next. next ≡ overlay_of plan.now table.now) }
        ensures few { steps.new ≤ steps.old + 2 * ids.count }
    {
        match ids.into_ids() {
            Some(ids) => {
                let _all = table.iter();
                let changes = changes_of_ids(alloc, plan, table, ids)?;
                self.after(alloc, plan, table, changes.as_slice(), steps)
            }
            None => Overlay::build(alloc, plan, table, steps),
        }
    }

    /// The overlay after changes of ids that lead to the table; or out of memory.
    fn after<L: Ledger>(
        &self,
        alloc: Global,
        plan: &Plan,
        table: &Table,
        ids: &[IdChange],
        steps: &mut Steps<L>,
    ) -> Result<Overlay, NoMemory>
        requires changes { AreIdChanges plan.now self.now table.now ids.now }
        requires table { IsTable table.now }
        ensures overlay { IfOk result (λ next. next ≡ overlay_of plan.now table.now) }
        ensures few { steps.new ≤ steps.old + length (touched_runs ids.now) }
    {
        let mentions = self.mentions.after(alloc, table, ids)?;
        let runs = touched_runs(alloc, ids)?;
        let hints = Hints::of(alloc, table, ids, runs.as_slice())?;
        let candidates = mentions.candidates();
        let turns = turns_of(
            alloc,
            plan,
            table,
            candidates,
            runs.as_slice(),
            &hints,
            steps,
        )?;
        let live = self.live.after(alloc, turns)?;
        Ok(Overlay { mentions, live })
    }

    /// The update that counts for a run, whatever its age: the latest of those that are about it,
    /// and of those of one stamp that with the greater id. `None` exactly where no update is about
    /// it. It takes no memory.
    pub fn chosen<'a>(&'a self, run: Run) -> Option<Chosen<'a>>
        ensures kept { option_map told result ≡ chosen_in self.entry.now run }
        ensures said { (t : Timetable) (entities : List Change)
            → self.entry.now ≡ overlay_of t entities
            → option_map told result ≡ option_map told_update (chosen t (updates_of entities) run) }
    {
        match self.live.runs().get(run) {
            Some(live) => Some(Chosen {
                id: &live.id,
                stamp: live.stamp,
            }),
            None => None,
        }
    }

    /// The departures at that very stop, of the runs for which an update counts, that are expected
    /// from `start` on, and before `end`, both in seconds since 1970: each once, by the expected
    /// instant, the trip, the day and the place. There is none at a stop past the last. It takes no
    /// memory.
    pub fn at_stop<'a>(&'a self, stop: u32, start: i64, end: i64) -> AtStop<'a>
        ensures kept { result ≡ slots_in self.entry.now stop start end }
        ensures said { (t : Timetable) (entities : List Change)
            → self.entry.now ≡ overlay_of t entities
            → result ≡ live_between t (updates_of entities) stop start end }
    {
        let first = RowKey {
            stop,
            at: start,
            trip: 0,
            day: 0,
            place: 0,
        };
        AtStop::among(self.live.rows().from(first), stop, end)
    }

    /// The entities whose updates are about added trips, by their ids. It takes no memory.
    pub fn added(&self) -> Iter<'_, SharedStored>
        ensures { result ≡ map (λ change. change.1) self.entry.now.mentions.added }
    {
        self.mentions.added().iter()
    }
}
