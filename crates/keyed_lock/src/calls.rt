//! What the lock does.

ghost use Rattle.std.specs.Prelude.{◌≡◌, IfOk, IfErr};
ghost use Rattle.keyed_lock.specs.Locks.{key_of, IsLoanOf};

use crate::keyed::Keyed;
use crate::lock::{KeyedLock, Loan};
use crate::rule::{Guarding, Releasing};
use atomic_table::{Refused, Table};
use std::alloc::Global;
use std::sync::{Mutex, Wait};
use std::thread;

impl<T: Keyed<K>, K> KeyedLock<T, K> {
    /// A lock of that key with the value in it; or the value, where no memory is found.
    pub fn new(alloc: Global, value: T, key: &K) -> Result<KeyedLock<T, K>, T>
        requires { T.fits key.now value }
        ensures key { IfOk result (λ lock. key_of lock ≡ key.now) }
        ensures back { IfErr result (λ back. back ≡ value) }
    {
        let Ok(mut places) = Vec::with_capacity(alloc, 1) else {
            return Err(value);
        };
        places.push_reserved(Some(value));
        match Table::new(alloc, &[0], places, key) {
            Ok((table, _seat)) => Ok(KeyedLock {
                turn: Mutex::new(()),
                table,
            }),
            Err(Refused { mut slots }) => {
                let Some(Some(back)) = slots.pop() else {
                    unreachable!()
                };
                slots.destroy_empty();
                Err(back)
            }
        }
    }

    /// The value, once nobody else has it. It takes no memory.
    pub fn take<R: Wait>(&self, rt: &R) -> (T, Loan<'_, T, K>)
        ensures fits { T.fits (key_of self.now) result.0 }
        ensures loan { IsLoanOf self.now result.1 }
    {
        let turn = self.turn.lock(rt);
        let shared = &self.table.shared;
        for _ in rt.forever() {
            let (found, mut seat) = shared.swap_new_seat::<Guarding<T>>(0, 1);
            if found == 0 {
                let value = shared.exchange(&mut seat, 0, None).unwrap();
                return (value, Loan { seat, turn });
            }
            thread::yield_now();
        }
        unreachable!()
    }

    /// Puts a value back. It takes no memory and waits for nobody.
    pub fn put_back(&self, value: T, loan: Loan<'_, T, K>)
        requires fits { T.fits (key_of self.now) value }
        requires loan { IsLoanOf self.now loan }
    {
        let Loan { mut seat, turn } = loan;
        let shared = &self.table.shared;
        match shared.exchange(&mut seat, 0, Some(value)) {
            None => {}
            Some(_) => unreachable!(),
        }
        shared.store::<Releasing>(&mut seat, 0, 0);
        drop(turn);
    }

    /// The value; or what lies in its place, where a loan never came back.
    pub fn into_inner(self) -> Result<T, Option<T>>
        ensures { IfOk result (λ value. T.fits (key_of self) value) }
    {
        let KeyedLock { turn: _, table } = self;
        let mut closed = table.close();
        let is_home = closed.word(0) == 0;
        let place = closed.take(0);
        closed.free();
        if !is_home {
            return Err(place);
        }
        match place {
            Some(value) => Ok(value),
            None => Err(None),
        }
    }
}
