//! The lines of one feed and two readers.

use hub_outside::MemorySink;
use serve_lines::{FeedNumbers, ReaderNumbers, Writing, write_feed, write_readers};
use std::alloc::Global;
use std::test::Fail;

/// Writes the two lines, of which the writes of those numbers fail.
fn written(alloc: Global, failing: Vec<u64>) -> (MemorySink, Writing) {
    let mut out = MemorySink::new(alloc, Vec::new(alloc), failing);
    let mut writing = Writing::Whole;
    let feed = FeedNumbers {
        accepted: 2,
        refused: 1,
        starved: 0,
        too_long: 0,
        last: 1_743_314_000,
    };
    write_feed(&mut out, &mut writing, "a", feed);
    let readers = ReaderNumbers {
        readers: 2,
        connections: 2,
        responses: 2,
        starved: 0,
    };
    write_readers(&mut out, &mut writing, readers);
    (out, writing)
}

#[test]
fn lines_are_written(rt: HostRuntime) -> Result<(), Fail> {
    let alloc = rt.alloc();
    let (out, writing) = written(alloc, Vec::new(alloc));
    assert_eq!(rt; writing, Writing::Whole);
    assert_eq!(rt;
        out.bytes(),
        b"feed a accepted 2 refused 1 starved 0 toolong 0 last 1743314000\nreaders 2 connections 2 responses 2 starved 0\n".as_slice()
    );
    Ok(())
}

#[test]
fn a_line_is_cut_where_the_output_fails(rt: HostRuntime) -> Result<(), Fail> {
    let alloc = rt.alloc();
    let (out, writing) = written(alloc, vec![in alloc; 4]?);
    assert_eq!(rt; writing, Writing::Cut);
    assert_eq!(rt; out.bytes(), b"feed a accepted ".as_slice());
    Ok(())
}
