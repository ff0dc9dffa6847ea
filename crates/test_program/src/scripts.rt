//! Whole replays: one message, pieces of any size, faults of the input and of the output, and words
//! of other commands.
use crate::runs::{ends, replays, run};
use hub_outside::{MemoryFiles, MemorySource};
use std::alloc::Global;
use std::test::Fail;

/// GTFS Realtime 2.0, a full data set, stamp 5.
const FIVE: &[u8] = b"\n\t\n\x032.0\x10\x00\x18\x05";

/// The script that offers the message twice.
fn twice(alloc: Global) -> Result<Vec<u8>, Fail> {
    let mut script = b"F a\nM a 11\n".to_vec(alloc)?;
    script.extend_from_slice(FIVE)?;
    script.extend_from_slice(b"\nM a 11\n")?;
    script.extend_from_slice(FIVE)?;
    script.extend_from_slice(b"\nO plain\nO city\nE\n")?;
    Ok(script)
}

/// What it prints.
fn told_twice(alloc: Global) -> Result<Vec<u8>, Fail> {
    let mut told = b"accepted 1\nrefused stale 5 5\nfeed 11\n".to_vec(alloc)?;
    told.extend_from_slice(FIVE)?;
    told.extend_from_slice(b"\nfeed none\n")?;
    Ok(told)
}

#[test]
fn a_message_is_taken_once(rt: HostRuntime) -> Result<(), Fail> {
    let alloc = rt.alloc();
    assert!(rt; replays(alloc, &twice(alloc)?, 0, &told_twice(alloc)?)?);
    Ok(())
}

/// Whether that script, read in these pieces while the reads and writes of these numbers fail, ends
/// so.
fn ends_twice(
    alloc: Global,
    pieces: Vec<u32>,
    failing_reads: Vec<u64>,
    failing_writes: Vec<u64>,
    status: u8,
    told: &[u8],
) -> Result<bool, Fail> {
    let files = MemoryFiles::new(Vec::new(alloc), Vec::new(alloc));
    let input = MemorySource::new(twice(alloc)?, pieces, failing_reads);
    let ran = run(alloc, &["replay"], files, input, failing_writes)?;
    Ok(ran.status == status && ran.written.as_slice() == told)
}

#[test]
fn pieces_do_not_matter(rt: HostRuntime) -> Result<(), Fail> {
    let alloc = rt.alloc();
    let told = told_twice(alloc)?;
    for cut in 0..80u32 {
        let pieces = vec![in alloc; cut, 1, 1, 2]?;
        let none = Vec::new(alloc);
        assert!(rt;
            ends_twice(alloc, pieces, none, Vec::new(alloc), 0, &told)?,
            "cut at {cut}"
        );
    }
    Ok(())
}

#[test]
fn faults(rt: HostRuntime) -> Result<(), Fail> {
    let alloc = rt.alloc();
    let first = vec![in alloc; 1]?;
    assert!(rt; ends_twice(alloc, Vec::new(alloc), Vec::new(alloc), first, 5, b"")?);
    let first = vec![in alloc; 1]?;
    let told = b"hub: input fault\n";
    assert!(rt; ends_twice(alloc, Vec::new(alloc), first, Vec::new(alloc), 4, told)?);
    Ok(())
}

#[test]
fn no_record(rt: HostRuntime) -> Result<(), Fail> {
    assert!(rt; replays(rt.alloc(), b"X\n", 7, b"hub: script refused at 0\n")?);
    assert!(rt; replays(rt.alloc(), b"F a\n", 7, b"hub: script refused at 4\n")?);
    Ok(())
}

#[test]
fn no_words(rt: HostRuntime) -> Result<(), Fail> {
    let alloc = rt.alloc();
    assert!(rt; ends(alloc, &[], Vec::new(alloc), b"E\n", 2, b"hub: usage\n")?);
    Ok(())
}

/// Ten trips that begin in the first ten minutes of a day are gone by noon.
#[test]
fn a_sample_is_run(rt: HostRuntime) -> Result<(), Fail> {
    let alloc = rt.alloc();
    let words = ["gen", "1", "10", "5"];
    let told = b"trips 10 messages 5 accepted 5 refused 0 rows 0 delays 0\n";
    assert!(rt; ends(alloc, &words, Vec::new(alloc), b"", 0, told)?);
    Ok(())
}
