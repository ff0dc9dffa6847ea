//! The rows of one file, to be looked up by their ids.

ghost use Rattle.std.specs.Prelude.{◌≡◌, ◌<◌, ◌≤◌, ◌^◌, ℕ, List, Some, None, length, find, bytes_eq, slice_get, IfSome, IfOk, option_copied, map};
ghost use Rattle.std.specs.List.{list_any};
ghost use Rattle.sched_types.specs.Timetable.{number_of};
ghost use Rattle.sched_load_defs.specs.Numbers.{by_id};
ghost use Rattle.sched_load_defs.specs.References.{has_id};
ghost use Rattle.row_tables.specs.Order.{IsOrder};
ghost use Rattle.sched_load_defs.specs.Files.{most_rows};

use crate::rows::IdRow;
use std::cmp::Ordering;
use std::marker::Model;

/// The rows of a file in its order, with their places by rising bytes of their ids.
#[derive(Drop)]
pub struct Table<R: IdRow> {
    rows: Vec<R>,
    order: Vec<u32>,
}

impl<R: IdRow> Model for Table<R> {
    ghost use Rattle.std.specs.Prelude.{List};
    ghost use Rattle.row_tables.specs.Order.{IsOrder};

    ghost Value = { List R };

    ghost view = { λ t. t.rows.items };

    ghost invariant = { λ t. IsOrder R.id_of t.rows.items t.order.items };
}

impl<R: IdRow> Table<R> {
    /// The rows, whose places in order are given.
    pub fn new(rows: Vec<R>, order: Vec<u32>) -> Table<R>
        requires { IsOrder R.id_of rows.items order.items }
        ensures { result ≡ rows.items }
    {
        Table { rows, order }
    }

    /// The rows in the order of their file.
    pub fn rows(&self) -> &[R]
        ensures { result.now ≡ self.now }
    {
        self.rows.as_slice()
    }

    /// How many ids there are.
    pub fn len(&self) -> usize
        ensures { result ≡ length (by_id R.id_of self.now) }
    {
        self.order.len()
    }

    /// The row of that number by rising ids.
    pub fn row(&self, number: usize) -> &R
        requires { number < length (by_id R.id_of self.now) }
        ensures { slice_get (by_id R.id_of self.now) number ≡ Some result.now }
    {
        &self.rows[self.order[number] as usize]
    }

    /// The number of the row with that id.
    pub fn number_of(&self, id: &str) -> Option<usize>
        ensures value { result ≡ number_of R.id_of (by_id R.id_of self.now) id.now }
        ensures within { IfSome result (λ number. number < length (by_id R.id_of self.now)) }
    {
        let mut low = 0;
        let mut high = self.len();
        while low < high {
            let middle = low + (high - low) / 2;
            match self.row(middle).id().cmp(id) {
                Ordering::Less => low = middle + 1,
                Ordering::Equal => return Some(middle),
                Ordering::Greater => high = middle,
            }
        }
        None
    }

    /// The same, where the row with that id often is that of the number `near`.
    pub fn number_near(&self, near: usize, id: &str) -> Option<usize>
        ensures value { result ≡ number_of R.id_of (by_id R.id_of self.now) id.now }
        ensures within { IfSome result (λ number. number < length (by_id R.id_of self.now)) }
    {
        if near < self.len() && self.row(near).id() == id {
            return Some(near);
        }
        self.number_of(id)
    }

    /// Whether a row has that id.
    pub fn has(&self, id: &str) -> bool
        ensures { result ≡ has_id R.id_of self.now id.now }
    {
        self.number_of(id).is_some()
    }

    /// The row with that id.
    pub fn find(&self, id: &str) -> Option<&R>
        ensures { option_copied result ≡ find (λ row. bytes_eq (R.id_of row) id.now) self.now }
    {
        match self.number_of(id) {
            Some(number) => Some(self.row(number)),
            None => None,
        }
    }
}
