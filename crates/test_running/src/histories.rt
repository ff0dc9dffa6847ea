//! A history that ends as it began.

use hub_history::Author;
use std::test::Fail;

/// How many messages a line knows that saw the beginning of a history and then its end.
fn number_at_end() -> Option<u64> {
    let mut author = Author::open(2)?;
    let mut line = author.line();
    author.shows(&line);
    if !author.end() {
        return None;
    }
    let ended = author.line();
    line.learn(&ended);
    line.finish(&ended);
    if line.is_behind(&ended) {
        return None;
    }
    Some(line.number())
}

#[test]
fn a_line_learns_of_the_end(rt: HostRuntime) -> Result<(), Fail> {
    assert_eq!(rt; number_at_end(), Some(0));
    Ok(())
}
