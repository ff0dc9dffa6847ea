//! Messages of the feeds, a request for a board, and the responses to it.

ghost use Rattle.std.specs.Prelude.{◌≡◌, [], codes, Some, IfOk};
ghost use Rattle.rt_types.specs.declared.enums.Incrementality.TheVariants.{FullDataset};

use crate::NoMemory;
use rt_types::{Bytes, Entities, Entity, FeedMessage, Header, Incrementality, Text};
use std::alloc::Global;

/// The moment of the runs of two feeds, 07:53:20 on 30 March 2025 in the city.
pub const MOMENT: u64 = 1_743_314_000;

/// A message of stamp 5 without entities.
pub const FIVE: [u8; 11] = [
    0x0a, 0x09, 0x0a, 0x03, b'2', b'.', b'0', 0x10, 0x00, 0x18, 0x05,
];

/// A message of stamp 1743314000: T1 leaves its first stop 300 seconds late.
pub const UPDATE: [u8; 47] = [
    0x0a, 0x0d, 0x0a, 0x03, 0x32, 0x2e, 0x30, 0x10, 0x00, 0x18, 0xd0, 0xb8, 0xa3, 0xbf, 0x06, 0x12,
    0x1e, 0x0a, 0x01, 0x75, 0x1a, 0x19, 0x0a, 0x0e, 0x0a, 0x02, 0x54, 0x31, 0x1a, 0x08, 0x32, 0x30,
    0x32, 0x35, 0x30, 0x33, 0x33, 0x30, 0x12, 0x07, 0x08, 0x01, 0x1a, 0x03, 0x08, 0xac, 0x02,
];

/// The same, and it leaves from S2 in place of S1 there (StopTimeProperties, assigned_stop_id).
pub const MOVED: [u8; 53] = [
    0x0a, 0x0d, 0x0a, 0x03, 0x32, 0x2e, 0x30, 0x10, 0x00, 0x18, 0xd0, 0xb8, 0xa3, 0xbf, 0x06, 0x12,
    0x24, 0x0a, 0x01, 0x75, 0x1a, 0x1f, 0x0a, 0x0e, 0x0a, 0x02, 0x54, 0x31, 0x1a, 0x08, 0x32, 0x30,
    0x32, 0x35, 0x30, 0x33, 0x33, 0x30, 0x12, 0x0d, 0x08, 0x01, 0x1a, 0x03, 0x08, 0xac, 0x02, 0x32,
    0x04, 0x0a, 0x02, 0x53, 0x32,
];

/// A request for one row of the board of the harbour.
pub const ASK: &str = "GET /board/city/S3?limit=1 HTTP/1.1\r\nHost: h\r\n\r\n";

/// The responses to it after no message, after that of stamp 5, and after the update too.
pub const SERVED: [&str; 3] = [
    "HTTP/1.1 200 OK\r\nContent-Type: text/plain; charset=utf-8\r\nContent-Length: 137\r\nX-Hub-Sequence: 0\r\nX-Hub-Moment: 1743314000\r\nConnection: keep-alive\r\n\r\nstop\tS3\tHarbour\nexpected\tscheduled\tdelay\tstate\troute\theadsign\ttrip\tdate\tplatform\n1743315000\t1743315000\t-\tscheduled\t7\tHill\tT1\t20250330\tS3\n",
    "HTTP/1.1 200 OK\r\nContent-Type: text/plain; charset=utf-8\r\nContent-Length: 137\r\nX-Hub-Sequence: 1\r\nX-Hub-Moment: 1743314000\r\nConnection: keep-alive\r\n\r\nstop\tS3\tHarbour\nexpected\tscheduled\tdelay\tstate\troute\theadsign\ttrip\tdate\tplatform\n1743315000\t1743315000\t-\tscheduled\t7\tHill\tT1\t20250330\tS3\n",
    "HTTP/1.1 200 OK\r\nContent-Type: text/plain; charset=utf-8\r\nContent-Length: 134\r\nX-Hub-Sequence: 2\r\nX-Hub-Moment: 1743314000\r\nConnection: keep-alive\r\n\r\nstop\tS3\tHarbour\nexpected\tscheduled\tdelay\tstate\troute\theadsign\ttrip\tdate\tplatform\n1743315300\t1743315000\t300\tlive\t7\tHill\tT1\t20250330\tS3\n",
];

/// No bytes that a reader does not know.
pub fn no_bytes(alloc: Global) -> Bytes {
    Bytes::from_vec(Vec::new(alloc))
}

/// A whole data set of these entities, made at that stamp.
pub fn dataset_of(alloc: Global, stamp: u64, entities: Vec<Entity>) -> Result<FeedMessage, NoMemory>
    ensures stamp { IfOk result (λ message. message.header.timestamp ≡ Some stamp) }
    ensures version { IfOk result (λ message. message.header.version ≡ codes "2.0") }
    ensures whole { IfOk result (λ message. message.header.incrementality ≡ Some FullDataset) }
    ensures entities { IfOk result (λ message. message.entity ≡ entities.items) }
{
    Ok(FeedMessage {
        header: Header {
            version: Text::new(alloc, "2.0")?,
            incrementality: Some(Incrementality::FullDataset),
            timestamp: Some(stamp),
            unknown: no_bytes(alloc),
        },
        entity: Entities::new(entities),
        unknown: no_bytes(alloc),
    })
}

/// A whole data set without entities, made at that stamp.
pub fn full_dataset(alloc: Global, stamp: u64) -> Result<FeedMessage, NoMemory>
    ensures stamp { IfOk result (λ message. message.header.timestamp ≡ Some stamp) }
    ensures version { IfOk result (λ message. message.header.version ≡ codes "2.0") }
    ensures entities { IfOk result (λ message. message.entity ≡ []) }
{
    dataset_of(alloc, stamp, Vec::new(alloc))
}
