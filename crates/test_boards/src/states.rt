//! A hub of two feeds is offered messages and looked at.

use board_parts::Oracle;
use hub_core::Refusal;
use hub_state::{HubCore, NoMemory, ReplayHub};
use sample_city::{FIVE, full_dataset, two_feeds};
use std::test::Fail;

/// How many messages a look finds.
fn found<O: Oracle>(oracle: &mut O) -> Result<u64, NoMemory> {
    oracle.look()
}

#[test]
fn a_state_takes_the_next_view(rt: HostRuntime) -> Result<(), Fail> {
    let alloc = rt.alloc();
    let mut core = HubCore::new(alloc, two_feeds(alloc)?)?;
    let next = core.prepare(alloc, 1, full_dataset(alloc, 5)?)?;
    assert_eq!(rt; core.view().entries(), 0);
    core.commit(next);
    assert_eq!(rt; core.view().entries(), 1);
    Ok(())
}

#[test]
fn a_message_is_taken_once(rt: HostRuntime) -> Result<(), Fail> {
    let alloc = rt.alloc();
    let mut hub = ReplayHub::new(alloc, two_feeds(alloc)?)?;
    assert_eq!(rt; hub.offer(1, &FIVE)?, 1);
    let again = hub.offer(1, &FIVE);
    assert!(rt; matches!(again, Err(Refusal::Stale { last: 5, got: 5 })));
    assert_eq!(rt; found(&mut hub)?, 1);
    assert_eq!(rt; hub.view().entries(), 1);
    Ok(())
}
