//! The lock and its loan.

ghost use Rattle.std.specs.Prelude.{◌≡◌};

use crate::keyed::Keyed;
use crate::rule::Guarding;
use atomic_table::{Seat, Table};
use std::alloc::Global;
use std::sync::{Mutex, MutexGuard};

/// A lock with a key. It is not dropped where its value is not: it ends by `into_inner`.
pub struct KeyedLock<T: Keyed<K>, K> {
    // Who waits for it sleeps here.
    pub(crate) turn: Mutex<()>,
    // One word, 0 while the value is at home, and its place.
    pub(crate) table: Table<Option<T>, K, K, Guarding<T>, Global>,
    ghost one_word: { table.shared.table_id.words ≡ 1 },
    ghost one_place: { table.shared.table_id.slots ≡ 1 },
}

/// The right and the duty to put a value back. It is not dropped: it ends by `put_back`.
pub struct Loan<'a, T, K> {
    pub(crate) seat: Seat<Option<T>, K>,
    pub(crate) turn: MutexGuard<'a, ()>,
}
