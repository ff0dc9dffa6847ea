//! The hub.

use crate::locked::Locked;
use crate::tag::Tag;
use keyed_lock::KeyedLock;
use std::marker::Model;

/// A hub that threads share. A contract sees which one it is. It is not dropped: it ends by
/// `close_hub`.
pub struct Hub {
    pub(crate) lock: KeyedLock<Locked, Tag>,
}

impl Model for Hub {
    ghost use Rattle.keyed_lock.specs.Locks.{key_of};
    ghost use Rattle.hub_shared.specs.Seats.{Ties};

    ghost Value = { Ties };

    ghost view = { λ hub. key_of hub.lock };
}
