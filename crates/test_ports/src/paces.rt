//! How often refusals are told, at given moments.

use hub_core::Refusal;
use hub_ports::{Pace, Refusals};
use std::test::Fail;

#[test]
fn a_pace_is_a_minute(rt: HostRuntime) -> Result<(), Fail> {
    let mut pace = Pace::new();
    assert_eq!(rt; pace.rest(), None);
    assert_eq!(rt; pace.count(1000), Some(1));
    assert_eq!(rt; (pace.count(1000), pace.count(1059)), (None, None));
    assert_eq!(rt; pace.count(1060), Some(3));
    assert_eq!(rt; (pace.count(1119), pace.count(1120)), (None, Some(2)));
    assert_eq!(rt; pace.rest(), None);
    assert_eq!(rt; pace.count(1121), None);
    assert_eq!(rt; (pace.rest(), pace.rest()), (Some(1), None));
    Ok(())
}

/// Those without memory have a pace of their own.
#[test]
fn refusals_are_counted(rt: HostRuntime) -> Result<(), Fail> {
    let stale = Refusal::Stale { last: 9, got: 8 };
    let repeated = Refusal::Stale { last: 9, got: 9 };
    let mut refusals = Refusals::new(true);
    assert_eq!(rt; refusals.count(&repeated, 5), None);
    assert_eq!(rt; refusals.count(&stale, 5), Some(1));
    assert_eq!(rt; refusals.count(&Refusal::NoMemory, 6), Some(1));
    assert_eq!(rt; refusals.count(&Refusal::BadStamp { got: 0 }, 64), None);
    assert_eq!(rt; refusals.count(&repeated, 65), None);
    assert_eq!(rt; refusals.count(&Refusal::NoMemory, 65), None);
    assert_eq!(rt; refusals.count(&stale, 65), Some(2));
    assert_eq!(rt; refusals.count(&Refusal::NoMemory, 66), Some(2));
    Ok(())
}
