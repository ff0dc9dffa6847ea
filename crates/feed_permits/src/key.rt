//! The keys.

use crate::view::View;
use atomic_table::Seat;
use std::marker::Model;

/// The one key of its number. A contract sees which desk it is of, its number and how often it was
/// granted.
#[derive(Drop)]
pub struct Key {
    pub(crate) number: usize,
    pub(crate) seat: Seat<(), View>,
}

impl Model for Key {
    ghost use Rattle.feed_permits.specs.Seen.{KeySeen, IsKey};

    ghost Value = { KeySeen };

    ghost view = { λ key. record {
      table = key.seat.table_id;
      number = key.number;
      granted = key.seat.me.0.granted;
    } };

    ghost invariant = { λ key. IsKey key.number key.seat.me };
}
