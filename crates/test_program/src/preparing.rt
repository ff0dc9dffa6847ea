//! What `serve` needs, of the small city.
use crate::city::{city, city_with};
use crate::runs::texts;
use hub_main::{Prepared, prepare_serve};
use hub_outside::{MemoryFile, MemoryFiles, MemorySink};
use std::alloc::Global;
use std::test::Fail;

/// What is prepared by these words on the files, of which the calls of these numbers fail: the
/// status, or 0 where a hub may be opened; and what was written.
fn prepared(
    alloc: Global,
    words: &[&str],
    files: Vec<MemoryFile>,
    failing: Vec<u64>,
) -> Result<(u8, MemorySink), Fail> {
    let words = texts(alloc, words)?;
    let mut files = MemoryFiles::new(files, failing);
    let mut out = MemorySink::new(alloc, Vec::new(alloc), Vec::new(alloc));
    let status = match prepare_serve(alloc, &words, &mut files, &mut out) {
        Prepared::Ready(ready) => {
            let feeds = ready.plans.feeds().len();
            if feeds == 2 && ready.conf.readers == 2 {
                0
            } else {
                99
            }
        }
        Prepared::Status(status) => status,
    };
    Ok((status, out))
}

const SERVE: [&str; 2] = ["serve", "city.toml"];

#[test]
fn hub_of_a_configuration_is_prepared(rt: HostRuntime) -> Result<(), Fail> {
    let alloc = rt.alloc();
    let (status, out) = prepared(alloc, &SERVE, city(alloc)?, Vec::new(alloc))?;
    assert_eq!(rt; status, 0);
    assert_eq!(rt; out.bytes(), b"".as_slice());
    Ok(())
}

/// Words without any file, which calls fail, and what comes of it.
const REFUSED: [(&[&str], u64, u8, &[u8]); 3] = [
    (&["server", "city.toml"], 0, 2, b"hub: usage\n"),
    (&SERVE, 0, 3, b"hub: config absent\n"),
    (&SERVE, 1, 4, b"hub: file fault\n"),
];

#[test]
fn refusals_are_written(rt: HostRuntime) -> Result<(), Fail> {
    let alloc = rt.alloc();
    for (words, call, wanted, line) in REFUSED {
        let failing = vec![in alloc; call]?;
        let (status, out) = prepared(alloc, words, Vec::new(alloc), failing)?;
        assert_eq!(rt; status, wanted);
        assert_eq!(rt; out.bytes(), line);
    }
    let files = city_with(alloc, "city/trips.txt", b"\n")?;
    let (status, _) = prepared(alloc, &SERVE, files, Vec::new(alloc))?;
    assert_eq!(rt; status, 3);
    Ok(())
}
