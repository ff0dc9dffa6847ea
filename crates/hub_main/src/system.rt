//! The commands on the outside of a runtime.

use crate::offline::run_offline;
use hub_outside::{NoMemory, StdFiles, StdSink, StdSource, SystemClock};
use rt_types::Text;
use std::alloc::Global;
use std::env::Args;
use std::io::{ErrorKind, Read, Write};
use std::{io, rt};

/// Runs the command of the words, which are those behind the program's name, on files and a clock
/// of the system, an input and an output, and gives the exit status that [`run_offline`] gives.
pub fn run_on_system<R: rt::Files + rt::Clock, I: Read + Drop, O: Write + Drop>(
    alloc: Global,
    words: &[Text],
    system: &R,
    input: I,
    output: O,
) -> u8 {
    let mut files = StdFiles::new(system);
    let mut input = StdSource::new(input);
    let mut out = StdSink::new(output);
    let mut clock = SystemClock::new(system);
    run_offline(alloc, words, &mut files, &mut input, &mut out, &mut clock)
}

/// The words behind the program's name, which is the first; or want of memory, as where the system
/// doesn't give them. Where one is not UTF-8 there are none: no command has such a word, and none
/// has no words.
pub fn words_of(alloc: Global, words: io::Result<Args>) -> Result<Vec<Text>, NoMemory> {
    match words {
        Ok(words) => texts_behind_first(alloc, words),
        Err(error) if error.kind() == ErrorKind::InvalidData => Ok(Vec::new(alloc)),
        Err(_) => Err(NoMemory),
    }
}

fn texts_behind_first(alloc: Global, words: Args) -> Result<Vec<Text>, NoMemory> {
    let mut texts = Vec::new(alloc);
    for word in words.skip(1) {
        texts.push(Text::new(alloc, word.as_str())?)?;
    }
    Ok(texts)
}
