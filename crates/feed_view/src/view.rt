//! The view of a feed.

ghost use Rattle.std.specs.Prelude.{◌≡◌, ◌+◌, ◌*◌, ◌<◌, ◌≤◌, [], length, true, IfOk, IsTrue};
ghost use Rattle.alert_select.specs.FeedAlerts.{alerts_of};
ghost use Rattle.feed_defs.specs.History.{entities_after, is_full, stamp_of};
ghost use Rattle.sched_types.specs.Timetable.{Timetable};
ghost use Rattle.text_defs.specs.Moments.{last_moment, is_stamp};
ghost use Rattle.board_defs.specs.Views.{fold_after};
ghost use Rattle.feed_view.specs.Kept.{nothing_seen, seen_of, FeedSeen, IsOver};

use crate::NoMemory;
use alert_select::AlertIndex;
use delay_rule::Steps;
use entity_table::{SharedStored, Stored, Table, first_table};
use rt_types::{Copied, FeedMessage, Incrementality};
use run_overlay::Overlay;
use sched_types::Plan;
use std::alloc::Global;
use std::marker::{Brand, Model};
use std::sync::ledger::{Blank, Ledger};
use std::thread::Threads;

/// What is kept of a feed. A contract sees it as `FeedSeen`, and it never changes.
#[derive(Drop)]
pub struct FeedView {
    table: Table,
    // What of the table has an alert.
    alerts: AlertIndex,
    // What its updates come to on the feed's timetable.
    overlay: Overlay,
    // The stamp of the last message, 0 if there is none.
    stamp: u64,
    // How many messages there were.
    count: u64,
}

impl Model for FeedView {
    ghost use Rattle.std.specs.Prelude.{◌≡◌, ◌≤◌};
    ghost use Rattle.text_defs.specs.Moments.{last_moment};
    ghost use Rattle.feed_view.specs.Kept.{FeedSeen, AreKept};

    ghost Value = { FeedSeen };

    ghost view = { λ v. record {
      fold = record {
        count = v.count;
        stamp = v.stamp;
        entities = v.table;
      };
      overlay = v.overlay;
    } };

    ghost invariant = { λ v. AreKept v.table v.alerts v.count v.stamp };
}

impl FeedView {
    /// The view of a feed that sent nothing, whatever its timetable. It takes no memory.
    pub fn empty(alloc: Global) -> FeedView
        ensures nothing { result ≡ nothing_seen }
        ensures over { (t : Timetable) → IsOver t result }
    {
        FeedView {
            table: Table::empty(alloc),
            alerts: AlertIndex::empty(alloc),
            overlay: Overlay::empty(alloc),
            stamp: 0,
            count: 0,
        }
    }

    /// The view after one message more, whose stamp is a moment after the last one, of a feed of
    /// that timetable; or out of memory. The message's entities are taken out of it, and the two
    /// views share what it doesn't touch. The runs that its updates are about, or were about
    /// before, are walked: up to two for each entity.
    pub fn next<L: Ledger>(
        alloc: Global,
        plan: &Plan,
        old: &FeedView,
        message: FeedMessage,
        steps: &mut Steps<L>,
    ) -> Result<FeedView, NoMemory>
        requires moment { IsTrue (is_stamp (stamp_of message)) }
        requires newer { old.now.fold.stamp < stamp_of message }
        requires over { IsOver plan.now old.now }
        ensures after { IfOk result (λ next. next.fold ≡ fold_after message old.now.fold) }
        ensures over { IfOk result (λ next. IsOver plan.now next) }
        ensures few { steps.new ≤ steps.old + 2 * length message.entity }
    {
        let _all = old.table.iter();
        let stamp = message.header.timestamp.unwrap_or(0);
        let ids = old.overlay.ids_of(alloc, &message)?;
        let Held { table, alerts } = held_after(alloc, &old.table, &old.alerts, message)?;
        let overlay = old.overlay.change_by(alloc, plan, &table, ids, steps)?;
        Ok(FeedView {
            table,
            alerts,
            overlay,
            stamp,
            count: old.count + 1,
        })
    }

    /// The same, where nobody counts the walks.
    pub fn after(
        alloc: Global,
        plan: &Plan,
        old: &FeedView,
        message: FeedMessage,
    ) -> Result<FeedView, NoMemory>
        requires moment { IsTrue (is_stamp (stamp_of message)) }
        requires newer { old.now.fold.stamp < stamp_of message }
        requires over { IsOver plan.now old.now }
        ensures after { IfOk result (λ next. next.fold ≡ fold_after message old.now.fold) }
        ensures over { IfOk result (λ next. IsOver plan.now next) }
    {
        uncounted::<Brand>(alloc, plan, old, message, Blank::new(1))
    }

    /// The view of a feed of that timetable that holds what the table says, after so many messages,
    /// of which the last had that stamp, in seconds since 1970; or out of memory. Whatever messages
    /// left that table, stamp and count, their view is equal to this. Updates are matched and runs
    /// are walked on as many threads as the machine has processors.
    pub fn build(
        rt: &(impl Threads + Sync),
        alloc: Global,
        plan: &Plan,
        table: Table,
        stamp: u64,
        count: u64,
    ) -> Result<FeedView, NoMemory>
        requires few { count ≤ stamp }
        requires moment { stamp ≤ last_moment }
        ensures built { IfOk result (λ view. view ≡ seen_of plan.now
            (record { count = count; stamp = stamp; entities = table })) }
        ensures same { (seen : FeedSeen) → IsOver plan.now seen
            → seen.fold ≡ record { count = count; stamp = stamp; entities = table }
            → IfOk result (λ view. view ≡ seen) }
    {
        let alerts = AlertIndex::build(alloc, &table)?;
        let overlay = Overlay::build_on(rt, alloc, plan, &table)?;
        Ok(FeedView {
            table,
            alerts,
            overlay,
            stamp,
            count,
        })
    }

    /// What [`FeedView::after`] gives of a whole data set ([`is_whole`]), as [`FeedView::build`]
    /// makes it.
    pub fn after_whole(
        rt: &(impl Threads + Sync),
        alloc: Global,
        plan: &Plan,
        old: &FeedView,
        message: FeedMessage,
    ) -> Result<FeedView, NoMemory>
        requires whole { is_full message ≡ true }
        requires moment { IsTrue (is_stamp (stamp_of message)) }
        requires newer { old.now.fold.stamp < stamp_of message }
        ensures after { IfOk result (λ next. next.fold ≡ fold_after message old.now.fold) }
        ensures over { IfOk result (λ next. IsOver plan.now next) }
    {
        let stamp = message.header.timestamp.unwrap_or(0);
        let count = old.count() + 1;
        let table = first_table(alloc, message)?;
        FeedView::build(rt, alloc, plan, table, stamp, count)
    }

    /// What the feed holds.
    pub fn table(&self) -> &Table
        ensures { result.now ≡ self.now.fold.entities }
    {
        &self.table
    }

    /// What of it has an alert.
    pub fn alerts(&self) -> &AlertIndex
        ensures { result.now ≡ alerts_of self.now.fold.entities }
    {
        &self.alerts
    }

    /// What its updates come to on the feed's timetable.
    pub fn overlay(&self) -> &Overlay
        ensures { result.now ≡ self.now.overlay }
    {
        &self.overlay
    }

    /// The stamp of its last message, in seconds since 1970; 0 if it sent none.
    pub fn stamp(&self) -> u64
        ensures value { result ≡ self.now.fold.stamp }
        ensures moment { result ≤ last_moment }
    {
        self.stamp
    }

    /// How many of its messages were accepted. There are no more than its last stamp is.
    pub fn count(&self) -> u64
        ensures value { result ≡ self.now.fold.count }
        ensures few { result ≤ self.now.fold.stamp }
        ensures moment { result ≤ last_moment }
    {
        self.count
    }
}

/// What a feed holds, and what of it has an alert.
#[derive(Drop)]
struct Held {
    table: Table,
    alerts: AlertIndex,
}

/// Whether a message is the whole data set of its feed (GTFS Realtime 2.0, FeedHeader,
/// `incrementality`).
pub fn is_whole(message: &FeedMessage) -> bool
    ensures { result ≡ is_full message.now }
{
    match message.header.incrementality {
        Some(Incrementality::Differential) => false,
        Some(Incrementality::FullDataset) | None => true,
    }
}

/// What a feed that held nothing holds after a message, whose entities are taken out of it; or out
/// of memory.
fn held_first(alloc: Global, message: FeedMessage) -> Result<Held, NoMemory>
    ensures table { IfOk result (λ held. held.table ≡ entities_after message []) }
    ensures alerts { IfOk result (λ held. held.alerts ≡ alerts_of held.table) }
{
    let table = first_table(alloc, message)?;
    let alerts = AlertIndex::build(alloc, &table)?;
    Ok(Held { table, alerts })
}

/// What a feed holds after a message that goes on from what it held, entity by entity; or out of
/// memory.
fn held_on(
    alloc: Global,
    before: &Table,
    alerts_before: &AlertIndex,
    message: FeedMessage,
) -> Result<Held, NoMemory>
    requires { alerts_before.now ≡ alerts_of before.now }
    ensures table { IfOk result (λ held. held.table ≡ entities_after message before.now) }
    ensures alerts { IfOk result (λ held. held.alerts ≡ alerts_of held.table) }
{
    before.sound();
    let stamp = message.header.timestamp.unwrap_or(0);
    let mut table = before.start(alloc, &message)?;
    let mut alerts = alerts_before.start(alloc, &message)?;
    for entity in message.entity.into_vec() {
        let stored = SharedStored::new(alloc, Stored { entity, stamp })?;
        let changed = table.with(stored.copy()?)?;
        alerts = alerts.with(&stored, changed.before)?;
        table = changed.table;
    }
    Ok(Held { table, alerts })
}

/// What a feed holds after a message, whose entities are taken out of it; or out of memory.
fn held_after(
    alloc: Global,
    before: &Table,
    alerts_before: &AlertIndex,
    message: FeedMessage,
) -> Result<Held, NoMemory>
    requires { alerts_before.now ≡ alerts_of before.now }
    ensures table { IfOk result (λ held. held.table ≡ entities_after message before.now) }
    ensures alerts { IfOk result (λ held. held.alerts ≡ alerts_of held.table) }
{
    if is_whole(&message) {
        held_first(alloc, message)
    } else {
        held_on(alloc, before, alerts_before, message)
    }
}

/// The view after a message, by a count of walks that nobody reads.
fn uncounted<L: Ledger>(
    alloc: Global,
    plan: &Plan,
    old: &FeedView,
    message: FeedMessage,
    blank: Blank,
) -> Result<FeedView, NoMemory>
    requires moment { IsTrue (is_stamp (stamp_of message)) }
    requires newer { old.now.fold.stamp < stamp_of message }
    requires over { IsOver plan.now old.now }
    requires name { blank.name ≡ L.name }
    requires parts { blank.parts ≡ L.parts }
    requires some { 0 < blank.parts }
    ensures after { IfOk result (λ next. next.fold ≡ fold_after message old.now.fold) }
    ensures over { IfOk result (λ next. IsOver plan.now next) }
{
    let mut steps = Steps::<L>::new(blank);
    FeedView::next(alloc, plan, old, message, &mut steps)
}
