//! The one call of `run_offline`: words over files, an input and an output in memory.
use hub_main::run_offline;
use hub_outside::{FixedClock, MemoryFile, MemoryFiles, MemorySink, MemorySource};
use rt_types::Text;
use std::alloc::Global;
use std::test::Fail;

/// What a run ended with, and what it wrote.
#[derive(Drop)]
pub(crate) struct Ran {
    pub(crate) status: u8,
    pub(crate) written: Vec<u8>,
}

/// A list of words.
pub(crate) fn texts(alloc: Global, words: &[&str]) -> Result<Vec<Text>, Fail> {
    let mut texts = Vec::new(alloc);
    for word in words {
        texts.push(Text::new(alloc, word)?)?;
    }
    Ok(texts)
}

/// Runs the words on those files and that input. The writes of these numbers fail.
pub(crate) fn run(
    alloc: Global,
    words: &[&str],
    mut files: MemoryFiles,
    mut input: MemorySource,
    failing_writes: Vec<u64>,
) -> Result<Ran, Fail> {
    let words = texts(alloc, words)?;
    let mut out = MemorySink::new(alloc, Vec::new(alloc), failing_writes);
    let mut clock = FixedClock::new(vec![in alloc; 0]?);
    let status = run_offline(alloc, &words, &mut files, &mut input, &mut out, &mut clock);
    Ok(Ran {
        status,
        written: out.bytes().to_vec(alloc)?,
    })
}

/// Whether the words on those files and that input end with the status and print just that.
pub(crate) fn ends(
    alloc: Global,
    words: &[&str],
    files: Vec<MemoryFile>,
    input: &[u8],
    status: u8,
    told: &[u8],
) -> Result<bool, Fail> {
    let files = MemoryFiles::new(files, Vec::new(alloc));
    let input = MemorySource::new(input.to_vec(alloc)?, Vec::new(alloc), Vec::new(alloc));
    let ran = run(alloc, words, files, input, Vec::new(alloc))?;
    Ok(ran.status == status && ran.written.as_slice() == told)
}

/// Whether a script without a timetable ends with the status and prints just that.
pub(crate) fn replays(alloc: Global, script: &[u8], status: u8, told: &[u8]) -> Result<bool, Fail> {
    ends(alloc, &["replay"], Vec::new(alloc), script, status, told)
}
