//! A hub of one feed whose messages have the stamps 1, 2, 3 and so on.

ghost use Rattle.std.specs.Prelude.{◌≡◌, ◌≤◌, ◌++◌, ◌∷◌, [], length, vec_len, IfOk, OnErr};
ghost use Rattle.std.specs.Arc.{arc_value};
ghost use Rattle.std.specs.List.{All};
ghost use Rattle.feed_defs.specs.declared.history.Entry.{Entry};
ghost use Rattle.feed_defs.specs.History.{IsLegal};
ghost use Rattle.board_defs.specs.Views.{StandsFor, feed_at};
ghost use Rattle.hub_history.specs.Told.{history_of, AreOne};

use board_parts::{HubView, Oracle};
use hub_state::HubCore;
use rt_types::{Copied, FeedMessage};
use sample_city::{full_dataset, one_feed};
use snapshot_cell::{NoMemory, Pass, Publisher, Receipt, Snapshots, snapshots};
use std::alloc::Global;
use std::marker::Model;
use std::sync::{Arc, Wait};
use std::test::Fail;
use texts::LAST_MOMENT;

/// A publisher with the hub whose views it shows.
pub(crate) struct Shower {
    pub(crate) publisher: Publisher,
    pub(crate) core: HubCore,
}

impl Model for Shower {
    ghost use Rattle.std.specs.Prelude.{◌≡◌, length};
    ghost use Rattle.feed_defs.specs.History.{IsLegal};
    ghost use Rattle.board_defs.specs.Views.{StandsFor};
    ghost use Rattle.hub_history.specs.Told.{Told, history_of};

    ghost Value = { Told };

    ghost view = { λ shower. shower.publisher.line };

    ghost invariant = { λ shower. StandsFor (history_of shower.publisher.line) shower.core
        × (shower.publisher.plans ≡ shower.core.plans)
        × (shower.publisher.line.feeds ≡ 1) × (length shower.core.plans.feeds ≡ 1)
        × IsLegal shower.publisher.line.feeds (history_of shower.publisher.line) };
}

impl Shower {
    /// Shows the view with the next message.
    pub(crate) fn show_next<R: Wait>(&mut self, rt: &R, alloc: Global) -> Result<Receipt, NoMemory>
        ensures hub { AreOne self.new self.old }
        ensures receipt { IfOk result (λ receipt. AreOne receipt self.old) }
    {
        let stamp = stamp_of_first(self.core.view());
        if stamp >= LAST_MOMENT {
            return Err(NoMemory);
        }
        let message = full_dataset(alloc, stamp + 1)?;
        let next = self.core.prepare(alloc, 0, message.copy()?)?;
        let shared = Arc::try_clone(&next)?;
        let receipt = put_message(rt, &mut self.publisher, shared, &message)?;
        self.core.commit(next);
        Ok(receipt)
    }
}

/// The stamp of the last message of the only feed.
fn stamp_of_first(view: &HubView) -> u64
    requires { length view.now.plans.feeds ≡ 1 }
    ensures { result ≡ (feed_at view.now 0).fold.stamp }
{
    view.sound();
    view.feed(0).stamp()
}

/// Shows the view with that message of the only feed, which the contract names.
fn put_message<R: Wait>(
    rt: &R,
    publisher: &mut Publisher,
    next: Arc<HubView, Global>,
    message: &FeedMessage,
) -> Result<Receipt, NoMemory>
    ghost entry: { Entry }
    requires named { entry ≡ record { feed = 0; message = message.now } }
    requires legal { IsLegal publisher.old.line.feeds (history_of publisher.old.line ++ entry ∷ []) }
    requires stands { StandsFor (history_of publisher.old.line ++ entry ∷ []) (arc_value next) }
    requires plans { (arc_value next).plans ≡ publisher.old.plans }
    ensures published { IfOk result (λ receipt. publisher.new.line ≡ receipt) }
    ensures history { IfOk result (λ receipt. history_of receipt
        ≡ history_of publisher.old.line ++ record { feed = 0; message = message.now } ∷ []) }
    ensures hub { IfOk result (λ receipt. AreOne receipt publisher.old.line) }
    ensures plans { publisher.new.plans ≡ publisher.old.plans }
    ensures kept { OnErr result (publisher.new ≡ publisher.old) }
{
    publisher.put(rt, 0, next)
}

/// A hub that accepted nothing, with so many passes.
pub(crate) fn opened<R: Wait>(
    rt: &R,
    alloc: Global,
    readers: u32,
) -> Result<(Shower, Vec<Pass>), NoMemory>
    requires some { 1 ≤ readers }
    requires few { readers ≤ 128 }
    ensures count { IfOk result (λ all. vec_len all.1 ≡ readers) }
    ensures hub { IfOk result (λ all. All (λ pass. AreOne pass.line all.0) all.1.items) }
{
    let core = HubCore::new(alloc, one_feed(alloc)?)?;
    let view = Arc::try_clone(core.view())?;
    let Snapshots { publisher, passes } = snapshots(alloc, rt, view, readers)?;
    let shower = Shower { publisher, core };
    Ok((shower, passes))
}

/// What two passes see while two messages are published: the first looks before and after it learns
/// of the first message, the second is shown both, looks, and lets go of what it found.
fn seen_by_two<R: Wait>(
    rt: &R,
    alloc: Global,
    shower: &mut Shower,
    first: &mut Pass,
    second: &mut Pass,
) -> Result<[u64; 9], NoMemory>
    requires first { AreOne first.old.line shower.old }
    requires second { AreOne second.old.line shower.old }
    ensures hub { AreOne shower.new shower.old }
    ensures second { AreOne second.new.line shower.old }
{
    let before = first.look()?;
    let receipt = shower.show_next(rt, alloc)?;
    first.learn(&receipt);
    let unchanged = first.view().entries();
    let after = first.look()?;
    let shown = first.view().entries();
    let next = shower.show_next(rt, alloc)?;
    shower.publisher.show(second);
    let unseen = second.view().entries();
    let found = second.look()?;
    second.release();
    let released = second.view().entries();
    Ok([
        before,
        receipt.number(),
        unchanged,
        after,
        shown,
        next.number(),
        unseen,
        found,
        released,
    ])
}

/// How many messages an ended hub and a pass that knows its end tell of.
fn ended<R: Wait>(rt: &R, shower: Shower, pass: &mut Pass) -> Option<[u64; 2]>
    requires { AreOne pass.old.line shower }
{
    let Shower { publisher, core: _ } = shower;
    let Ok(ending) = publisher.close(rt) else {
        return None;
    };
    pass.finish(&ending);
    let number = ending.number();
    let found = pass.look();
    ending.end(rt);
    Some([number, found.ok()?])
}

/// The whole run of a hub with two passes on one thread, or none where no memory was found.
fn run_of_two<R: Wait>(rt: &R, alloc: Global) -> Option<([u64; 9], [u64; 2])> {
    let Ok((mut shower, mut passes)) = opened(rt, alloc, 2) else {
        return None;
    };
    let Some(mut first) = passes.pop() else {
        unreachable!()
    };
    let Some(mut second) = passes.pop() else {
        unreachable!()
    };
    let seen = seen_by_two(rt, alloc, &mut shower, &mut first, &mut second);
    let numbers = ended(rt, shower, &mut second)?;
    Some((seen.ok()?, numbers))
}

#[test]
fn passes_see_what_was_published(rt: HostRuntime) -> Result<(), Fail> {
    let run = run_of_two(&rt, rt.alloc());
    assert_eq!(rt; run, Some(([0, 1, 0, 1, 1, 2, 0, 2, 0], [2, 2])));
    Ok(())
}
