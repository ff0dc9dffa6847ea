//! Keys that are granted in turn.

use feed_permits::{NoMemory, permits};
use std::alloc::Global;
use std::test::Fail;

/// How many keys there are, once the last one was granted.
fn count(alloc: Global) -> Result<usize, NoMemory> {
    let mut all = permits(alloc)?;
    if let Some(mut key) = all.keys.pop() {
        all.desk.agree(&mut key);
        all.desk.raise(&mut key);
        all.desk.agree(&mut key);
        all.desk.raise(&mut key);
        all.keys.push(key)?;
    }
    Ok(all.keys.len())
}

#[test]
fn there_is_a_key_for_each_number(rt: HostRuntime) -> Result<(), Fail> {
    assert_eq!(rt; count(rt.alloc())?, 64);
    Ok(())
}
