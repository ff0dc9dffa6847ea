//! A whole message with its bytes, with ample memory. Refused ones are offered by scripts, in
//! `test_program`.

use hub_core::{Refusal, check};

/// Version 2.0, FULL_DATASET, stamp 5, and no entity.
const PLAIN: &[u8] = b"\x0a\x09\x0a\x032.0\x10\x00\x18\x05";

#[test]
fn a_newer_message_is_checked(rt: HostRuntime) {
    assert!(rt; check(rt.alloc(), 4, PLAIN).is_ok());
    let stale = check(rt.alloc(), 6, PLAIN);
    assert!(rt; matches!(stale, Err(Refusal::Stale { last: 6, got: 5 })));
}
