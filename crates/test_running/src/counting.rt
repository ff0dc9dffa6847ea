//! A count under a lock with a limit, which two threads raise.

ghost use Rattle.std.specs.Prelude.{◌≡◌};
ghost use Rattle.keyed_lock.specs.Locks.{key_of};

use keyed_lock::{Keyed, KeyedLock};
use std::alloc::Global;
use std::sync::Wait;
use std::test::Fail;
use std::thread::{Threads, join};

/// How far a count may go.
#[derive(Drop)]
struct Limit {
    most: u64,
}

/// A count that is never dropped.
struct Count {
    value: u64,
}

impl Keyed<Limit> for Count {
    ghost use Rattle.std.specs.Prelude.{◌≤◌};

    ghost fits = { λ limit count. count.value ≤ limit.most };
}

/// Adds one to the count under the lock, if it stays within the limit.
fn add_one<R: Wait>(rt: &R, lock: &KeyedLock<Count, Limit>, limit: &Limit)
    requires { key_of lock.now ≡ limit.now }
{
    let (mut count, loan) = lock.take(rt);
    if count.value < limit.most {
        count.value += 1;
    }
    lock.put_back(count, loan);
}

/// Does so 300 times.
fn add_many<R: Wait>(rt: &R, lock: &KeyedLock<Count, Limit>, limit: &Limit)
    requires { key_of lock.now ≡ limit.now }
{
    for _ in 0..300 {
        add_one(rt, lock, limit);
    }
}

/// The count after two threads, or none where no memory was found.
fn counted_by_two<R: Threads + Wait + Sync>(rt: &R, alloc: Global, limit: &Limit) -> Option<u64> {
    match KeyedLock::new(alloc, Count { value: 0 }, limit) {
        Ok(lock) => {
            let shared = &lock;
            join(
                rt,
                || -> ()
                    requires { key_of shared.now ≡ limit.now }
                { add_many(rt, shared, limit) },
                || -> ()
                    requires { key_of shared.now ≡ limit.now }
                { add_many(rt, shared, limit) },
            );
            value_of(lock)
        }
        Err(Count { value: _ }) => None,
    }
}

/// The count under a lock that no thread shares any more.
fn value_of(lock: KeyedLock<Count, Limit>) -> Option<u64> {
    match lock.into_inner() {
        Ok(Count { value }) => Some(value),
        Err(Some(Count { value: _ })) => None,
        Err(None) => None,
    }
}

#[test]
fn two_threads_add_up(rt: HostRuntime) -> Result<(), Fail> {
    let count = counted_by_two(&rt, rt.alloc(), &Limit { most: 1000 });
    assert_eq!(rt; count, Some(600));
    Ok(())
}

#[test]
fn a_limit_is_kept(rt: HostRuntime) -> Result<(), Fail> {
    let count = counted_by_two(&rt, rt.alloc(), &Limit { most: 500 });
    assert_eq!(rt; count, Some(500));
    Ok(())
}
