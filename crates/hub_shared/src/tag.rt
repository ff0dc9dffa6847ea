//! Which hub a lock is of.

use feed_permits::Desk;
use hub_state::HubCore;
use snapshot_cell::Receipt;
use std::marker::Model;
use std::snapshot::Snapshot;

/// The key of a hub's lock. A contract sees which hub it is.
#[derive(Drop)]
pub(crate) struct Tag {
    pub(crate) receipt: Receipt,
    pub(crate) desk: Snapshot<Desk>,
    pub(crate) core: Snapshot<HubCore>,
}

impl Model for Tag {
    ghost use Rattle.hub_shared.specs.Seats.{Ties};

    ghost Value = { Ties };

    ghost view = { λ tag. record {
      book = tag.receipt.book;
      table = tag.desk.value.table;
      plans = tag.core.value.plans;
    } };
}
