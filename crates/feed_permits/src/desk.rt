//! The desk.

ghost use Rattle.std.specs.Prelude.{◌≡◌, ℕ, ◌+◌, ◌<◌, ◌≤◌, length, replicate, slice_index, slice_set, IfOk};
ghost use Rattle.feed_permits.specs.Seen.{fresh_key};

use crate::NoMemory;
use crate::key::Key;
use crate::steps::{Counts, Deals, Grants, Rule, Tells, Tests, Vouches};
use crate::view::View;
use atomic_table::{Seat, Table};
use std::alloc::Global;
use std::marker::Model;

/// The desk of the permits. A contract sees its count for each of the 64 numbers.
#[derive(Drop)]
pub struct Desk {
    table: Table<(), View, (), Rule, Global>,
    seat: Seat<(), View>,
}

impl Model for Desk {
    ghost use Rattle.feed_permits.specs.Seen.{DeskSeen, IsDesk};

    ghost Value = { DeskSeen };

    ghost view = { λ desk. record {
      table = desk.table.shared.table_id;
      made = desk.seat.me.0.made;
      counts = desk.seat.me.0.counts;
    } };

    ghost invariant = { λ desk. IsDesk desk.table.shared.table_id desk.seat.table_id desk.seat.me };
}

impl Desk {
    /// A desk that handed out no key, or want of memory.
    pub(crate) fn open(alloc: Global) -> Result<Desk, NoMemory>
        ensures made { IfOk result (λ desk. desk.made ≡ 0) }
        ensures counts { IfOk result (λ desk. desk.counts ≡ replicate 64 0) }
    {
        let words = [0; 64];
        let (table, seat) = Table::of_words(alloc, &words, &())?;
        Ok(Desk { table, seat })
    }

    /// The key of the next number.
    pub(crate) fn deal(&mut self, number: usize) -> Key
        requires next { self.old.made ≡ number }
        requires some { number < 64 }
        ensures key { result ≡ fresh_key self.old.table number }
        ensures desk { self.new ≡ record self.old { made = self.old.made + 1 } }
    {
        let table = &self.table;
        let shared = &table.shared;
        let seat = shared.split_seat::<Deals>(&mut self.seat);
        Key { number, seat }
    }

    /// The desk's count at the key's number is now at most what the key was granted. Nothing
    /// changes. It takes no memory and waits for nobody.
    pub fn agree(&mut self, key: &mut Key)
        requires { key.old.table ≡ self.old.table }
        ensures desk { self.new ≡ self.old }
        ensures key { key.new ≡ key.old }
        ensures agreed { slice_index self.new.counts key.new.number ≤ key.new.granted }
    {
        let table = &self.table;
        let shared = &table.shared;
        let note = shared.split_seat::<Tells>(&mut self.seat);
        shared.join_seat::<Tells>(&mut key.seat, note);
        shared.load::<Tests>(&mut key.seat, 0);
    }

    /// Adds one to the count at the key's number, and to what the key was granted. It takes no
    /// memory and waits for nobody.
    pub fn raise(&mut self, key: &mut Key)
        requires table { key.old.table ≡ self.old.table }
        requires level { slice_index self.old.counts key.old.number ≡ key.old.granted }
        requires room { key.old.granted < 253402300799 }
        ensures key { key.new ≡ record key.old { granted = key.old.granted + 1 } }
        ensures desk { self.new ≡ record self.old {
          counts = slice_set self.old.counts key.old.number (key.old.granted + 1);
        } }
    {
        let table = &self.table;
        let shared = &table.shared;
        shared.fetch_add::<Grants>(&mut key.seat, key.number, 1);
        let note = shared.split_seat::<Vouches>(&mut key.seat);
        shared.join_seat::<Vouches>(&mut self.seat, note);
        shared.load::<Counts>(&mut self.seat, key.number);
    }
}
