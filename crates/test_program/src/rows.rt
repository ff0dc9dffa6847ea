//! Whole scripts of one feed, each with what it prints, and scripts at their limits.
use crate::runs::replays;
use std::alloc::Global;
use std::test::Fail;

/// What a script offers to the feed a, and what it prints together with the combined feed.
#[derive(Drop)]
struct Row {
    messages: &'static [&'static [u8]],
    told: &'static [u8],
}

const ROWS: [Row; 11] = [
    // A message comes out as it came in.
    Row {
        messages: &[b"\n\t\n\x032.0\x10\x00\x18\x05"],
        told: b"accepted 1\nfeed 11\n\n\t\n\x032.0\x10\x00\x18\x05\n",
    },
    // It is taken once.
    Row {
        messages: &[
            b"\n\t\n\x032.0\x10\x00\x18\x05",
            b"\n\t\n\x032.0\x10\x00\x18\x05",
        ],
        told: b"accepted 1\nrefused stale 5 5\nfeed 11\n\n\t\n\x032.0\x10\x00\x18\x05\n",
    },
    // An entity goes out under its feed.
    Row {
        messages: &[b"\n\t\n\x032.0\x10\x00\x18\x05\x12\x03\n\x01x"],
        told: b"accepted 1\nfeed 18\n\n\t\n\x032.0\x10\x00\x18\x05\x12\x05\n\x03a:x\n",
    },
    // One that the same message deletes is gone.
    Row {
        messages: &[b"\n\t\n\x032.0\x10\x01\x18\x05\x12\x03\n\x01x\x12\x05\n\x01x\x10\x01"],
        told: b"accepted 1\nfeed 11\n\n\t\n\x032.0\x10\x00\x18\x05\n",
    },
    // A whole data set takes the place of all before it.
    Row {
        messages: &[
            b"\n\t\n\x032.0\x10\x01\x18\x01\x12\x03\n\x01p",
            b"\n\t\n\x032.0\x10\x01\x18\x02\x12\x03\n\x01q",
            b"\n\t\n\x032.0\x10\x01\x18\x03\x12\x03\n\x01r",
            b"\n\t\n\x032.0\x10\x00\x18\x04\x12\x03\n\x01s",
        ],
        told: b"accepted 1\naccepted 2\naccepted 3\naccepted 4\nfeed 18\n\n\t\n\x032.0\x10\x00\x18\x04\x12\x05\n\x03a:s\n",
    },
    // Two headers are one.
    Row {
        messages: &[b"\n\x05\n\x032.0\n\x02\x18\x05"],
        told: b"accepted 1\nfeed 11\n\n\t\n\x032.0\x10\x00\x18\x05\n",
    },
    // Faults tell the entity that they are in, and change nothing.
    Row {
        messages: &[
            b"\n\t\n\x032.0\x10\x00\x18\x05\x12\x02\n\x01",
            b"\n\t\n\x032.0\x10\x00\x18\x05\x12\x03\n\x01",
            b"\n\t\n\x032.0\x10\x00\x18\x05",
        ],
        told: b"refused malformed 1 cut FeedEntity 0\nrefused malformed 0 cut FeedMessage 0\naccepted 1\nfeed 11\n\n\t\n\x032.0\x10\x00\x18\x05\n",
    },
    // Groups nest 64 deep.
    Row {
        messages: &[
            b"\n\t\n\x032.0\x10\x00\x18\x05KKKKKKKKKKKKKKKKKKKKKKKKKKKKKKKKKKKKKKKKKKKKKKKKKKKKKKKKKKKKKKKKLLLLLLLLLLLLLLLLLLLLLLLLLLLLLLLLLLLLLLLLLLLLLLLLLLLLLLLLLLLLLLLL",
            b"\n\t\n\x032.0\x10\x00\x18\x06KKKKKKKKKKKKKKKKKKKKKKKKKKKKKKKKKKKKKKKKKKKKKKKKKKKKKKKKKKKKKKKKKLLLLLLLLLLLLLLLLLLLLLLLLLLLLLLLLLLLLLLLLLLLLLLLLLLLLLLLLLLLLLLLLL",
        ],
        told: b"accepted 1\nrefused malformed 0 group FeedMessage 0\nfeed 11\n\n\t\n\x032.0\x10\x00\x18\x05\n",
    },
    // What is unknown within an entity goes out as it came.
    Row {
        messages: &[b"\n\t\n\x032.0\x10\x00\x18\x05\x12\x07\n\x01xJ\x02hi"],
        told: b"accepted 1\nfeed 22\n\n\t\n\x032.0\x10\x00\x18\x05\x12\x09\n\x03a:xJ\x02hi\n",
    },
    // Another version, and no stamp.
    Row {
        messages: &[b"\n\t\n\x033.0\x10\x00\x18\x05", b"\n\x05\n\x032.0"],
        told: b"refused version 3.0\nrefused stamp 0\nfeed 11\n\n\t\n\x032.0\x10\x00\x18\x00\n",
    },
    // Nothing was offered.
    Row {
        messages: &[],
        told: b"feed 11\n\n\t\n\x032.0\x10\x00\x18\x00\n",
    },
];

/// Whether the messages, offered to the feed a one after another, print that together with the
/// combined feed.
fn tells(alloc: Global, messages: &[&[u8]], told: &[u8]) -> Result<bool, Fail> {
    let mut script = b"F a\n".to_vec(alloc)?;
    for message in messages {
        let head = format!(in alloc; "M a {}\n", message.len())?;
        script.extend_from_slice(head.as_bytes())?;
        script.extend_from_slice(message)?;
        script.push(b'\n')?;
    }
    script.extend_from_slice(b"O plain\nE\n")?;
    replays(alloc, &script, 0, told)
}

#[test]
fn rows_of_one_feed(rt: HostRuntime) -> Result<(), Fail> {
    for row in ROWS {
        assert!(rt; tells(rt.alloc(), row.messages, row.told)?);
    }
    Ok(())
}

/// A message with a header and then an unknown field of so many bytes, whose length is spelled so.
fn long_message(alloc: Global, rest: usize, length: &[u8]) -> Result<Vec<u8>, Fail> {
    let mut message = b"\n\t\n\x032.0\x10\x00\x18\x05J".to_vec(alloc)?;
    message.extend_from_slice(length)?;
    message.extend_from_slice(&vec![in alloc; b'x'; rest]?)?;
    Ok(message)
}

/// A message has 16,777,216 bytes at most.
#[test]
fn longest_message(rt: HostRuntime) -> Result<(), Fail> {
    let alloc = rt.alloc();
    let most = long_message(alloc, 16_777_200, b"\xf0\xff\xff\x07")?;
    let fed = b"accepted 1\nfeed 11\n\n\t\n\x032.0\x10\x00\x18\x05\n";
    assert!(rt; tells(alloc, &[most.as_slice()], fed)?);
    let more = long_message(alloc, 16_777_201, b"\xf1\xff\xff\x07")?;
    let refused = b"refused toolong 16777217\nfeed 11\n\n\t\n\x032.0\x10\x00\x18\x00\n";
    assert!(rt; tells(alloc, &[more.as_slice()], refused)?);
    Ok(())
}

/// A script whose first record asks for a schedule of so many bytes.
fn long_line(alloc: Global, count: usize) -> Result<Vec<u8>, Fail> {
    let mut script = b"O ".to_vec(alloc)?;
    script.extend_from_slice(&vec![in alloc; b'x'; count]?)?;
    script.extend_from_slice(b"\nE\n")?;
    Ok(script)
}

/// A script that declares so many feeds.
fn many_feeds(alloc: Global, count: u32) -> Result<Vec<u8>, Fail> {
    let mut script = Vec::new(alloc);
    for number in 0..count {
        let line = format!(in alloc; "F feed_{number}\n")?;
        script.extend_from_slice(line.as_bytes())?;
    }
    script.extend_from_slice(b"E\n")?;
    Ok(script)
}

/// A line has 4096 bytes at most, its LF included; a script has 64 feeds at most; a length has 12
/// digits.
#[test]
fn limits_of_scripts(rt: HostRuntime) -> Result<(), Fail> {
    let alloc = rt.alloc();
    let scripts: [(Vec<u8>, u8, &[u8]); 6] = [
        (long_line(alloc, 4093)?, 0, b"feed none\n"),
        (long_line(alloc, 4094)?, 7, b"hub: script refused at 0\n"),
        (many_feeds(alloc, 64)?, 0, b""),
        (many_feeds(alloc, 65)?, 7, b"hub: script refused at 630\n"),
        (
            b"F a\nM a 000000000000\n\nE\n".to_vec(alloc)?,
            0,
            b"refused malformed 0 missing FeedMessage 1\n",
        ),
        (
            b"F a\nM a 0000000000000\n\nE\n".to_vec(alloc)?,
            7,
            b"hub: script refused at 4\n",
        ),
    ];
    for (script, status, told) in scripts.iter() {
        assert!(rt; replays(alloc, script, *status, told)?);
    }
    Ok(())
}
