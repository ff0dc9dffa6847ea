//! Which words ask for the server.

use hub_main::{NoMemory, words_of};
use hub_words::asks_for_server;
use std::alloc::Global;
use std::io;
use std::io::ErrorKind;
use std::test::Fail;

/// How many words are behind the program's name, and whether they ask for the server.
fn asked(alloc: Global, words: &[&str]) -> Result<(usize, bool), NoMemory> {
    let mut copies = Vec::new(alloc);
    for word in words {
        copies.push(String::from_str(alloc, word)?)?;
    }
    let words = words_of(alloc, Ok(copies.into_iter()))?;
    Ok((words.len(), asks_for_server(&words)))
}

#[test]
fn the_server_is_asked_for_by_its_word(rt: HostRuntime) -> Result<(), Fail> {
    let alloc = rt.alloc();
    let server = asked(alloc, &["hub", "serve", "hub.toml"])?;
    let command = asked(alloc, &["hub", "check", "serve"])?;
    let name = asked(alloc, &["serve"])?;
    assert_eq!(rt;
        (server, command, name),
        ((2, true), (2, false), (0, false))
    );
    Ok(())
}

#[test]
fn words_that_are_not_given_are_no_usage(rt: HostRuntime) -> Result<(), Fail> {
    let alloc = rt.alloc();
    let foreign = words_of(alloc, Err(io::Error::from(ErrorKind::InvalidData)))?;
    let starved = words_of(alloc, Err(io::Error::from(ErrorKind::OutOfMemory)));
    assert_eq!(rt; (foreign.len(), starved.is_err()), (0, true));
    Ok(())
}
