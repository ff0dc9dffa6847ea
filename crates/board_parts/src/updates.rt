//! Trip updates, and the order in which they count.

ghost use Rattle.std.specs.Prelude.{◌≡◌};
ghost use Rattle.board_defs.specs.Choice as choosing;
ghost use Rattle.board_defs.specs.Choice.{update_at, update_in};

use crate::entities::HeldEntity;
use board_base::counts_at;
use rt_types::TripUpdate;
use run_overlay::stamp_of;
use std::cmp::Ordering;
use std::marker::Model;

/// A trip update, with the number of its feed, the id of its entity, and its stamp. A contract sees
/// it as `Update` of `board_defs`.
#[derive(Drop)]
pub struct Update<'a> {
    stamp: u64,
    feed: u32,
    id: &'a str,
    update: &'a TripUpdate,
}

impl<'a> Model for Update<'a> {
    ghost use Rattle.board_defs.specs.Choice.{Update};

    ghost Value = { Update };

    ghost view = { λ u. record {
      stamp = u.stamp;
      feed = u.feed;
      id = u.id.now;
      update = u.update.now;
    } };
}

impl<'a> Update<'a> {
    /// The trip update of an entity, if it has one that counts at a moment.
    pub fn at(held: &HeldEntity<'a>, at: u64) -> Option<Update<'a>>
        ensures { result ≡ update_at at held.entry.now }
    {
        let update = Update::of(held)?;
        if counts_at(held.feed().max_age, update.stamp, at) {
            Some(update)
        } else {
            None
        }
    }

    /// The trip update of an entity, if it has one.
    fn of(held: &HeldEntity<'a>) -> Option<Update<'a>>
        ensures { result ≡ update_in held.entry.now }
    {
        let stored = held.stored();
        match &stored.entity.trip_update {
            Some(update) => {
                let update = update.get();
                Some(Update {
                    stamp: stamp_of(stored.stamp, update.timestamp),
                    feed: held.number(),
                    id: stored.entity.id.as_str(),
                    update,
                })
            }
            None => None,
        }
    }

    /// Its stamp, in seconds since 1970.
    pub fn stamp(&self) -> u64
        ensures { result ≡ self.entry.now.stamp }
    {
        self.stamp
    }

    /// The trip update.
    pub fn trip_update(&self) -> &'a TripUpdate
        ensures { result.now ≡ self.entry.now.update }
    {
        self.update
    }

    /// How it counts against another: the later one more, then that of the lower feed number, then
    /// that of the greater id.
    pub fn order(&self, other: &Update<'a>) -> Ordering
        ensures { result ≡ choosing.choice_cmp self.entry.now other.entry.now }
    {
        self.stamp
            .cmp(&other.stamp)
            .then(other.feed.cmp(&self.feed))
            .then(self.id.cmp(other.id))
    }

    /// The same again.
    pub fn again(&self) -> Update<'a>
        ensures { result ≡ self.entry.now }
    {
        Update {
            stamp: self.stamp,
            feed: self.feed,
            id: self.id,
            update: self.update,
        }
    }
}
