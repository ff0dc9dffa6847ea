//! Questions to a hub of one schedule without stops and of one feed, which sent nothing. Commands
//! ask for boards with rows.

ghost use Rattle.view_answers.specs.Questions.{question_seen};
ghost use Rattle.board_text_defs.specs.Answers.{IsAsked};

use crate::bare::bare_hub;
use std::alloc::Global;
use std::test::Fail;
use view_answers::{BoardAsked, NoMemory, Question, answer};

/// A board for an hour.
fn board<'a>(schedule: &'a str, stop: &'a str, json: bool) -> Question<'a>
    ensures { IsAsked (question_seen result) }
{
    Question::Board(BoardAsked {
        schedule,
        stop,
        at: 1_743_314_000,
        span: 3600,
        limit: 5,
        json,
    })
}

/// Whether the answer is those bytes, behind what stood there.
fn answers(alloc: Global, question: &Question<'_>, bytes: &[u8]) -> Result<bool, NoMemory>
    requires { IsAsked (question_seen question.now) }
{
    let view = bare_hub(alloc)?;
    let mut out = Vec::new(alloc);
    out.push(b'>')?;
    let is_there = answer(alloc, &view, question, &mut out)?;
    let Some(behind) = out.as_slice().strip_prefix(b">") else {
        return Ok(false);
    };
    Ok(is_there && behind == bytes)
}

/// Whether there is no answer, and nothing is appended.
fn is_absent(alloc: Global, question: &Question<'_>) -> Result<bool, NoMemory>
    requires { IsAsked (question_seen question.now) }
{
    let view = bare_hub(alloc)?;
    let mut out = Vec::new(alloc);
    let is_there = answer(alloc, &view, question, &mut out)?;
    Ok(!is_there && out.is_empty())
}

#[test]
fn a_feed(rt: HostRuntime) -> Result<(), Fail> {
    let alloc = rt.alloc();
    let header = b"\x0a\x09\x0a\x032.0\x10\x00\x18\x00";
    assert!(rt; answers(alloc, &Question::Feed { schedule: "city" }, header)?);
    assert!(rt; is_absent(alloc, &Question::Feed { schedule: "town" })?);
    Ok(())
}

#[test]
fn a_board_of_no_stop(rt: HostRuntime) -> Result<(), Fail> {
    let alloc = rt.alloc();
    assert!(rt; is_absent(alloc, &board("city", "S", false))?);
    assert!(rt; is_absent(alloc, &board("town", "S", true))?);
    Ok(())
}

#[test]
fn lists_of_a_bare_hub(rt: HostRuntime) -> Result<(), Fail> {
    let alloc = rt.alloc();
    let unmatched = b"feed\tid\tkind\treason\n";
    assert!(rt; answers(alloc, &Question::Unmatched { schedule: "city" }, unmatched)?);
    assert!(rt; is_absent(alloc, &Question::Unmatched { schedule: "town" })?);
    let status = b"entries\t0\nfeed\taccepted\tlast\tentities\na\t0\t0\t0\n";
    assert!(rt; answers(alloc, &Question::Status, status)?);
    Ok(())
}
