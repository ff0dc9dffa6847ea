//! Configurations and faults from outside, written by hand after the table of keys.

use hub_config::{ConfFault, NoMemory, PortKind, fault_line, read_conf};
use hub_config_defs::FeedConf;
use std::alloc::Global;
use std::test::Fail;

const CITY: &str =
    "[[schedule]]\nname = \"city\"\nfolder = \"city\"\nzone = \"CET-1CEST,M3.5.0,M10.5.0/3\"\nfirst = \"20250329\"\ndays = 3\n\n[[feed]]\nname = \"a\"\nschedule = \"city\"\n\n[[feed]]\nname = \"b\"\nschedule = \"city\"\n";

/// Whether a text has this line for its fault, or has none where that is `ok`.
fn has_fault(alloc: Global, text: &str, line: &str) -> Result<bool, NoMemory> {
    match read_conf(alloc, text.as_bytes()) {
        Ok(_) => Ok(line == "ok"),
        Err(fault) => Ok(fault_line(alloc, &fault)?.as_slice() == line.as_bytes()),
    }
}

/// The same of a schedule with these lines for its window.
fn window_has(alloc: Global, window: &str, line: &str) -> Result<bool, NoMemory> {
    let text = format!(in alloc;
        "[[schedule]]\nname = \"city\"\nfolder = \"f\"\nzone = \"UTC0\"\n{window}"
    )?;
    has_fault(alloc, text.as_str(), line)
}

/// The same of one feed with that max_age.
fn age_has(alloc: Global, max_age: &str, line: &str) -> Result<bool, NoMemory> {
    let text = format!(in alloc;
        "[[schedule]]\nname = \"city\"\nfolder = \"f\"\nzone = \"UTC0\"\nfirst = \"20240229\"\ndays = 1\n[[feed]]\nname = \"a\"\nschedule = \"city\"\nmax_age = {max_age}"
    )?;
    has_fault(alloc, text.as_str(), line)
}

/// The same of the city between some more lines.
fn city_has(alloc: Global, before: &str, after: &str, line: &str) -> Result<bool, NoMemory> {
    let text = format!(in alloc; "{before}\n{CITY}{after}")?;
    has_fault(alloc, text.as_str(), line)
}

/// The numbers of a feed: of its schedule, `max_age`, `every`, `polls` and `tries`.
fn numbers_of(feed: &FeedConf) -> [u64; 5] {
    [
        u64::from(feed.schedule),
        feed.max_age,
        feed.every,
        feed.polls,
        u64::from(feed.tries),
    ]
}

#[test]
fn reads_the_city(rt: HostRuntime) -> Result<(), Fail> {
    let conf = read_conf(rt.alloc(), CITY.as_bytes())?;
    let schedules = conf.schedules.as_slice();
    assert_eq!(rt; schedules.len(), 1);
    let schedule = &schedules[0];
    let texts = [
        conf.listen.as_str(),
        schedule.zone.as_str(),
        schedule.prefix.as_str(),
    ];
    assert_eq!(rt; texts, ["127.0.0.1:8080", "CET-1CEST,M3.5.0,M10.5.0/3", ""]);
    assert_eq!(rt; (conf.readers, conf.connections), (2, 0));
    assert_eq!(rt; (schedule.first, schedule.days), (20_250_329, 3));
    Ok(())
}

#[test]
fn reads_its_feeds(rt: HostRuntime) -> Result<(), Fail> {
    let conf = read_conf(rt.alloc(), CITY.as_bytes())?;
    let feeds = conf.feeds.as_slice();
    assert_eq!(rt; feeds.len(), 2);
    let feed = &feeds[1];
    assert_eq!(rt; [feed.name.as_str(), feed.place.as_str()], ["b", ""]);
    assert_eq!(rt; feed.kind, PortKind::Nothing);
    assert_eq!(rt; numbers_of(feed), [0, 0, 10, 0, 10]);
    Ok(())
}

const FULL: &str =
    "readers = 64\nconnections = 1000000000\nschedule = [{ name = \"a\", folder = \"f\", zone = \"UTC0\", first = \"19700201\", days = 1 }, { name = \"b_9\", folder = \"\", zone = \"\", first = \"29991231\", days = 400, prefix = \"12345678901234567890123456789012\" }]\nfeed = [{ name = \"a\", schedule = \"b_9\", kind = \"poll\", place = \"127.0.0.1:9//x?y\", max_age = 31622400, every = 86400, polls = 1000000000, tries = 1000 }]\n";

#[test]
fn reads_every_key(rt: HostRuntime) -> Result<(), Fail> {
    let conf = read_conf(rt.alloc(), FULL.as_bytes())?;
    assert_eq!(rt; (conf.readers, conf.connections), (64, 1_000_000_000));
    let feeds = conf.feeds.as_slice();
    assert_eq!(rt; conf.schedules.as_slice().len(), 2);
    assert_eq!(rt; feeds.len(), 1);
    let feed = &feeds[0];
    assert_eq!(rt;
        (feed.kind, feed.place.as_str()),
        (PortKind::Poll, "127.0.0.1:9//x?y")
    );
    assert_eq!(rt;
        numbers_of(feed),
        [1, 31_622_400, 86_400, 1_000_000_000, 1000]
    );
    Ok(())
}

#[test]
fn refuses_keys_of_the_document(rt: HostRuntime) -> Result<(), Fail> {
    let cases: [(&str, &str, &str); 6] = [
        ("readers = 0", "", "hub: config top 0 readers bad"),
        (
            "readers = 0\nzz = 1\nyy = 1",
            "",
            "hub: config top 0 yy unknown",
        ),
        (
            "readers = 65\nlisten = 1",
            "",
            "hub: config top 0 readers bad",
        ),
        (
            "listen = 1\nconnections = -1",
            "",
            "hub: config top 0 listen bad",
        ),
        (
            "connections = 1000000001",
            "",
            "hub: config top 0 connections bad",
        ),
        ("\"a\\tb\" = 1", "", "hub: config top 0 a b unknown"),
    ];
    for (before, after, line) in cases {
        assert!(rt; city_has(rt.alloc(), before, after, line)?, "{line}");
    }
    Ok(())
}

#[test]
fn refuses_arrays(rt: HostRuntime) -> Result<(), Fail> {
    let cases: [(&str, &str); 6] = [
        ("", "hub: config top 0 schedule missing"),
        ("schedule = []", "hub: config top 0 schedule bad"),
        ("[schedule]\nname = \"a\"", "hub: config top 0 schedule bad"),
        ("schedule = [{}, 1]", "hub: config top 0 schedule bad"),
        ("schedule = [{}]", "hub: config schedule 1 name missing"),
        ("schedule =", "hub: config toml"),
    ];
    for (text, line) in cases {
        assert!(rt; has_fault(rt.alloc(), text, line)?, "{line}");
    }
    Ok(())
}

#[test]
fn refuses_windows(rt: HostRuntime) -> Result<(), Fail> {
    let cases: [(&str, &str); 5] = [
        ("first = \"20240229\"\ndays = 400", "ok"),
        (
            "first = \"20230229\"\ndays = 401",
            "hub: config schedule 1 first bad",
        ),
        (
            "first = 20240229\ndays = 1",
            "hub: config schedule 1 first bad",
        ),
        (
            "first = \"19700131\"\ndays = 1",
            "hub: config schedule 1 first bad",
        ),
        (
            "first = \"20240229\"\ndays = 401",
            "hub: config schedule 1 days bad",
        ),
    ];
    for (window, line) in cases {
        assert!(rt; window_has(rt.alloc(), window, line)?, "{line}");
    }
    Ok(())
}

#[test]
fn refuses_feeds(rt: HostRuntime) -> Result<(), Fail> {
    let cases: [(&str, &str, &str); 5] = [
        (
            "",
            "[[feed]]\nname = \"a\"\nschedule = \"x\"",
            "hub: config feed 3 name twice",
        ),
        (
            "",
            "[[feed]]\nname = \"c\"\nschedule = \"x\"\nkind = \"x\"",
            "hub: config feed 3 schedule noname",
        ),
        (
            "",
            "[[feed]]\nname = \"c\"\nschedule = \"city\"\nkind = \"x\"",
            "hub: config feed 3 kind bad",
        ),
        (
            "",
            "[[feed]]\nname = \"C\"\nschedule = 1",
            "hub: config feed 3 name bad",
        ),
        (
            "",
            "[[schedule]]\nname = \"city\"",
            "hub: config schedule 2 name twice",
        ),
    ];
    for (before, after, line) in cases {
        assert!(rt; city_has(rt.alloc(), before, after, line)?, "{line}");
    }
    Ok(())
}

#[test]
fn refuses_ages(rt: HostRuntime) -> Result<(), Fail> {
    let cases: [(&str, &str); 4] = [
        ("0", "ok"),
        ("31622400", "ok"),
        ("31622401", "hub: config feed 1 max_age bad"),
        ("-1", "hub: config feed 1 max_age bad"),
    ];
    for (max_age, line) in cases {
        assert!(rt; age_has(rt.alloc(), max_age, line)?, "{line}");
    }
    Ok(())
}

#[test]
fn refuses_places_of_polls(rt: HostRuntime) -> Result<(), Fail> {
    let cases: [(&str, &str); 9] = [
        ("kind = \"poll\"\nplace = \"h/\"", "ok"),
        ("kind = \"stream\"\nplace = \"h\"", "ok"),
        ("kind = \"poll\"", "hub: config feed 2 place bad"),
        (
            "kind = \"poll\"\nplace = \"/feed\"",
            "hub: config feed 2 place bad",
        ),
        (
            "kind = \"poll\"\nplace = \"h/a b\"",
            "hub: config feed 2 place bad",
        ),
        (
            "kind = \"poll\"\nplace = 1\nevery = 0",
            "hub: config feed 2 place bad",
        ),
        ("every = 0\npolls = -1", "hub: config feed 2 every bad"),
        ("polls = 1000000001", "hub: config feed 2 polls bad"),
        ("tries = 1001", "hub: config feed 2 tries bad"),
    ];
    for (keys, line) in cases {
        assert!(rt; city_has(rt.alloc(), "", keys, line)?, "{line}");
    }
    Ok(())
}

#[test]
fn refuses_what_is_not_text(rt: HostRuntime) -> Result<(), Fail> {
    assert!(rt;
        matches!(
            read_conf(rt.alloc(), b"listen = \"\xff\""),
            Err(ConfFault::Toml)
        )
    );
    Ok(())
}
