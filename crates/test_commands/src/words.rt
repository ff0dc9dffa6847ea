//! Each command and each refusal, with ample memory: want of memory may come in place of any
//! answer, so that no contract refuses a reader that only says so.
use hub_words::{BoardAsked, Command, WordsFault, read_words, serve_path};
use rt_types::Text;
use std::alloc::Global;
use std::test::Fail;

fn texts(alloc: Global, words: &[&str]) -> Result<Vec<Text>, Fail> {
    let mut texts = Vec::new(alloc);
    for word in words {
        texts.push(Text::new(alloc, word)?)?;
    }
    Ok(texts)
}

/// Whether the words are that command.
fn is_read(alloc: Global, words: &[&str], command: Command<'_>) -> Result<bool, Fail> {
    let texts = texts(alloc, words)?;
    Ok(read_words(alloc, &texts) == Ok(command))
}

/// Whether the words are no command.
fn is_usage(alloc: Global, words: &[&str]) -> Result<bool, Fail> {
    let texts = texts(alloc, words)?;
    Ok(read_words(alloc, &texts) == Err(WordsFault::Usage))
}

#[test]
fn replays_and_checks(rt: HostRuntime) -> Result<(), Fail> {
    let alloc = rt.alloc();
    let commands: [(&[&str], Command<'_>); 7] = [
        (&["replay"], Command::Replay),
        (&["replay", "city.toml"], Command::ReplayWith("city.toml")),
        (&["replay", ""], Command::ReplayWith("")),
        (&["check", "city.toml"], Command::Check("city.toml")),
        (&["check", ""], Command::Check("")),
        (&["check", "check"], Command::Check("check")),
        (&["check", "Zürich.toml"], Command::Check("Zürich.toml")),
    ];
    for (words, command) in commands {
        assert!(rt; is_read(alloc, words, command)?);
    }
    Ok(())
}

/// A board of the words, which the command line has after the schedule and the stop.
fn board(at: u64, span: u32, limit: u32, json: bool) -> Command<'static> {
    Command::Board {
        config: "hub.toml",
        asked: BoardAsked {
            schedule: "city",
            stop: "ST",
            at,
            span,
            limit,
            json,
        },
    }
}

#[test]
fn boards(rt: HostRuntime) -> Result<(), Fail> {
    let alloc = rt.alloc();
    let boards: [([&str; 4], Command<'_>); 4] = [
        (
            ["1743314000", "3600", "50", "json"],
            board(1_743_314_000, 3600, 50, true),
        ),
        (
            ["00000000001743314000", "3600", "50", "text"],
            board(1_743_314_000, 3600, 50, false),
        ),
        (["0", "1", "1", "text"], board(0, 1, 1, false)),
        (
            ["253402300799", "86400", "00000000000000001000", "json"],
            board(253_402_300_799, 86_400, 1000, true),
        ),
    ];
    for ([at, span, limit, form], command) in boards {
        assert!(rt;
            is_read(
                alloc,
                &["board", "hub.toml", "city", "ST", at, span, limit, form],
                command
            )?
        );
    }
    Ok(())
}

#[test]
fn no_boards(rt: HostRuntime) -> Result<(), Fail> {
    let alloc = rt.alloc();
    let refused: [[&str; 4]; 13] = [
        ["253402300800", "3600", "50", "text"],
        ["10000000000000000000", "3600", "50", "text"],
        ["99999999999999999999", "3600", "50", "text"],
        ["000000000001743314000", "3600", "50", "text"],
        ["", "3600", "50", "text"],
        ["+1", "3600", "50", "text"],
        ["1743314000", "0", "50", "text"],
        ["1743314000", "86401", "50", "text"],
        ["1743314000", "3600", "0", "text"],
        ["1743314000", "3600", "1001", "text"],
        ["1743314000", "3600", "5O", "text"],
        ["1743314000", "3600", "50", "xml"],
        ["1743314000", "3600", "50", "JSON"],
    ];
    for [at, span, limit, form] in refused {
        assert!(rt;
            is_usage(
                alloc,
                &["board", "hub.toml", "city", "ST", at, span, limit, form]
            )?
        );
    }
    Ok(())
}

/// The sample of those words.
const fn sample(seed: u64, trips: u32, messages: u32) -> Command<'static> {
    Command::Gen {
        seed,
        trips,
        messages,
    }
}

#[test]
fn samples(rt: HostRuntime) -> Result<(), Fail> {
    let alloc = rt.alloc();
    let samples: [([&str; 3], Command<'_>); 6] = [
        (["7", "800", "5"], sample(7, 800, 5)),
        (["0", "1", "1"], sample(0, 1, 1)),
        (
            ["18446744073709551615", "20000", "2000"],
            sample(18_446_744_073_709_551_615, 20_000, 2000),
        ),
        (
            ["10000000000000000000", "020000", "02000"],
            sample(10_000_000_000_000_000_000, 20_000, 2000),
        ),
        (
            ["09999999999999999999", "1", "1"],
            sample(9_999_999_999_999_999_999, 1, 1),
        ),
        (
            ["9999999999999999999", "1", "1"],
            sample(9_999_999_999_999_999_999, 1, 1),
        ),
    ];
    for ([seed, trips, messages], command) in samples {
        assert!(rt; is_read(alloc, &["gen", seed, trips, messages], command)?);
    }
    Ok(())
}

#[test]
fn no_samples(rt: HostRuntime) -> Result<(), Fail> {
    let alloc = rt.alloc();
    let refused: [&[&str]; 11] = [
        &["gen"],
        &["gen", "1", "10"],
        &["gen", "1", "10", "5", "5"],
        &["gen", "18446744073709551616", "10", "5"],
        &["gen", "20000000000000000000", "10", "5"],
        &["gen", "000000000000000000001", "10", "5"],
        &["gen", "", "10", "5"],
        &["gen", "1", "0", "5"],
        &["gen", "1", "20001", "5"],
        &["gen", "1", "10", "0"],
        &["gen", "1", "10", "2001"],
    ];
    for words in refused {
        assert!(rt; is_usage(alloc, words)?);
    }
    Ok(())
}

#[test]
fn refusals(rt: HostRuntime) -> Result<(), Fail> {
    let alloc = rt.alloc();
    let refused: [&[&str]; 16] = [
        &[],
        &["unknown"],
        &[""],
        &["Replay"],
        &["repl"],
        &["replay", "city.toml", "city.toml"],
        &["check"],
        &["check", "city.toml", "city.toml"],
        &["check", "-x"],
        &["check", "-"],
        &["--help"],
        &["-h"],
        &["help"],
        &["help", "check"],
        &["--", "replay"],
        &["replay", "--"],
    ];
    for words in refused {
        assert!(rt; is_usage(alloc, words)?);
    }
    Ok(())
}

#[test]
fn no_board(rt: HostRuntime) -> Result<(), Fail> {
    let alloc = rt.alloc();
    let words = [
        "board",
        "hub.toml",
        "city",
        "ST",
        "1743314000",
        "3600",
        "50",
        "text",
        "text",
    ];
    let refused: [&[&str]; 3] = [&words[..1], &words[..7], &words];
    for words in refused {
        assert!(rt; is_usage(alloc, words)?);
    }
    Ok(())
}

#[test]
fn server_has_words_of_its_own(rt: HostRuntime) -> Result<(), Fail> {
    let alloc = rt.alloc();
    let words = texts(alloc, &["serve", "hub.toml"])?;
    assert_eq!(rt; serve_path(&words), Some("hub.toml"));
    let words = texts(alloc, &["serve", "-c"])?;
    assert_eq!(rt; serve_path(&words), None);
    Ok(())
}
