//! Publishing one message.

ghost use Rattle.std.specs.Prelude.{◌≡◌, [], ◌∷◌, ◌++◌, IfOk, OnErr};
ghost use Rattle.std.specs.Arc.{arc_value};
ghost use Rattle.feed_defs.specs.declared.history.Entry.{Entry};
ghost use Rattle.feed_defs.specs.History.{IsLegal};
ghost use Rattle.board_defs.specs.Views.{StandsFor};
ghost use Rattle.hub_history.specs.Told.{history_of, AreOne};

use crate::NoMemory;
use board_parts::HubView;
use rt_types::FeedMessage;
use snapshot_cell::{Publisher, Receipt};
use std::alloc::Global;
use std::snapshot::Snapshot;
use std::sync::{Arc, Wait};

/// Shows the view with that message of the feed at the end of what was published. The message
/// itself is in the view by now; contracts alone see which one it was.
pub(crate) fn publish<R: Wait>(
    rt: &R,
    publisher: &mut Publisher,
    feed: u32,
    view: Arc<HubView, Global>,
    message: &Snapshot<FeedMessage>,
) -> Result<Receipt, NoMemory>
    ghost entry: { Entry }
    requires named { entry ≡ record { feed = feed; message = message.now.value } }
    requires legal { IsLegal publisher.old.line.feeds
        (history_of publisher.old.line ++ entry ∷ []) }
    requires stands { StandsFor (history_of publisher.old.line ++ entry ∷ []) (arc_value view) }
    requires plans { (arc_value view).plans ≡ publisher.old.plans }
    ensures published { IfOk result (λ receipt. publisher.new.line ≡ receipt) }
    ensures history { IfOk result (λ receipt. history_of receipt
        ≡ history_of publisher.old.line
        ++ record { feed = feed; message = message.now.value } ∷ []) }
    ensures hub { IfOk result (λ receipt. AreOne receipt publisher.old.line) }
    ensures plans { publisher.new.plans ≡ publisher.old.plans }
    ensures kept { OnErr result (publisher.new ≡ publisher.old) }
{
    publisher.put(rt, feed, view)
}
