//! Messages that are at fault, each offered through a replay to a hub that holds nothing, with the
//! line that answers it.
use crate::runs::replays;
use std::alloc::Global;
use std::test::Fail;

/// The version 2.0, a whole data set, stamp 5.
const HEADER: &[u8] = b"\x0a\x09\x0a\x032.0\x10\x00\x18\x05";

/// A message in two parts, and the line. Where the outer level of a message is at fault, that comes
/// first, though the fault of an entity stands before it; and a field of another wire type is an
/// unknown one. A version is printed with a space for each control character.
const CASES: [(&[u8], &[u8], &str); 20] = [
    (b"", b"", "refused malformed 0 missing FeedMessage 1\n"),
    (
        b"\x0a\x00",
        b"",
        "refused malformed 0 missing FeedHeader 1\n",
    ),
    (
        b"\x0a\x03\x0a\x01\xff",
        b"",
        "refused malformed 0 text FeedHeader 1\n",
    ),
    (b"\x0a\x05\x0a\x03\x07\x7f0", b"", "refused version   0\n"),
    (HEADER, b"\x0c", "refused malformed 0 group FeedMessage 0\n"),
    (
        HEADER,
        b"\x4b\x54",
        "refused malformed 0 group FeedMessage 0\n",
    ),
    (HEADER, b"\x4b", "refused malformed 0 cut FeedMessage 0\n"),
    (HEADER, b"\x00", "refused malformed 0 tag FeedMessage 0\n"),
    (HEADER, b"\x0f", "refused malformed 0 tag FeedMessage 0\n"),
    (
        HEADER,
        b"\x80\x80\x80\x80\x10",
        "refused malformed 0 tag FeedMessage 0\n",
    ),
    (
        HEADER,
        b"\xff\xff\xff\xff\xff\xff\xff\xff\xff\xff",
        "refused malformed 0 varint FeedMessage 0\n",
    ),
    (
        HEADER,
        b"\x12\xff\xff\xff\xff\x0f",
        "refused malformed 0 cut FeedMessage 0\n",
    ),
    (
        HEADER,
        b"\x12\x02\x18\x01",
        "refused malformed 1 missing FeedEntity 1\n",
    ),
    (
        HEADER,
        b"\x12\x05\x0a\x01x\x1a\x00",
        "refused malformed 1 missing TripUpdate 1\n",
    ),
    (
        HEADER,
        b"\x12\x03\x0a\x01x\x12\x02\x0a\x05",
        "refused malformed 2 cut FeedEntity 0\n",
    ),
    (
        HEADER,
        b"\x12\x02\x0a\x05\x00",
        "refused malformed 0 tag FeedMessage 0\n",
    ),
    (HEADER, b"\x10\x01", "accepted 1\n"),
    (HEADER, b"\x4b\x08\x01\x4c", "accepted 1\n"),
    // The last second of the year 9999, and the one after it.
    (
        b"\x0a\x0e\x0a\x032.0\x10\x00\x18\xff\x82\xd1\xff\xaf\x07",
        b"",
        "accepted 1\n",
    ),
    (
        b"\x0a\x0e\x0a\x032.0\x10\x00\x18\x80\x83\xd1\xff\xaf\x07",
        b"",
        "refused stamp 253402300800\n",
    ),
];

/// Whether the message of these two parts is answered so.
fn is_answered(alloc: Global, head: &[u8], rest: &[u8], line: &str) -> Result<bool, Fail> {
    let length = head.len() + rest.len();
    let record = format!(in alloc; "F a\nM a {length}\n")?;
    let mut script = record.as_bytes().to_vec(alloc)?;
    script.extend_from_slice(head)?;
    script.extend_from_slice(rest)?;
    script.extend_from_slice(b"\nE\n")?;
    replays(alloc, &script, 0, line.as_bytes())
}

#[test]
fn messages_that_are_at_fault(rt: HostRuntime) -> Result<(), Fail> {
    for (head, rest, line) in CASES {
        assert!(rt; is_answered(rt.alloc(), head, rest, line)?, "{line}");
    }
    Ok(())
}
