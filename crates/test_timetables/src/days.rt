//! Values from outside: the zone database of the system, as Python's `zoneinfo` gives it.

use service_day::{Exception, ZoneFault, active, base, read_zone};
use std::process::Abort;
use std::test::Fail;
use texts::{date_plus, day_after, day_number, is_valid_date};

/// The base of a day in the zone of that rule.
fn base_in(rt: &impl Abort, rule: &str, date: u32) -> Result<i64, Fail> {
    assert!(rt; is_valid_date(date) && date <= 30_011_231);
    let zone = read_zone(rule)?;
    Ok(base(&zone, date)?)
}

#[test]
fn bases_agree_with_the_zone_database(rt: HostRuntime) -> Result<(), Fail> {
    let berlin = "CET-1CEST,M3.5.0,M10.5.0/3";
    let new_york = "EST5EDT,M3.2.0,M11.1.0";
    let sydney = "AEST-10AEDT,M10.1.0,M4.1.0/3";
    for (rule, date, seconds) in [
        (berlin, 20250329, 1743202800),
        (berlin, 20250330, 1743285600),
        (berlin, 20250331, 1743372000),
        (berlin, 20251025, 1761343200),
        (berlin, 20251026, 1761433200),
        (berlin, 20251027, 1761519600),
        (berlin, 29991231, 32503590000),
        (berlin, 30010204, 32538150000),
        (new_york, 20250308, 1741410000),
        (new_york, 20250309, 1741492800),
        (new_york, 20250310, 1741579200),
        (new_york, 20251101, 1761969600),
        (new_york, 20251102, 1762059600),
        (new_york, 20251103, 1762146000),
        (sydney, 20250405, 1743771600),
        (sydney, 20250406, 1743861600),
        (sydney, 20250407, 1743948000),
        (sydney, 20251004, 1759500000),
        (sydney, 20251005, 1759582800),
        (sydney, 20251006, 1759669200),
        ("UTC0", 20250330, 1743292800),
        ("<+03>-3", 20250330, 1743282000),
    ] {
        assert_eq!(rt; base_in(&rt, rule, date)?, seconds, "{rule} on {date}");
    }
    Ok(())
}

#[test]
fn other_texts_are_no_zone(rt: HostRuntime) {
    for text in ["", "UTC", "Europe/Berlin", "CET-1CEST", ":UTC0", "UTC0 "] {
        assert!(rt;
            matches!(read_zone(text), Err(ZoneFault::BadZone)),
            "{text}"
        );
    }
}

/// A service of that weekday's flag in March 2025, less the 24th and with 1 April.
fn runs(rt: &impl Abort, flags: u8, date: u32) -> bool {
    assert!(rt; is_valid_date(date));
    let exceptions = [
        Exception {
            date: 20250401,
            kind: 1,
        },
        Exception {
            date: 20250324,
            kind: 2,
        },
    ];
    active(flags, 20250303, 20250330, &exceptions, date)
}

#[test]
fn services_run_on_their_days(rt: HostRuntime) {
    for (flags, date, want) in [
        (1, 20250303, true),
        (1, 20250224, false),
        (1, 20250304, false),
        (2, 20250304, true),
        (4, 20250305, true),
        (8, 20250306, true),
        (16, 20250307, true),
        (32, 20250308, true),
        (64, 20250309, true),
        (64, 20250330, true),
        (63, 20250330, false),
        (64, 20250406, false),
        (127, 20250324, false),
        (0, 20250401, true),
        (0, 20250402, false),
    ] {
        assert_eq!(rt; runs(&rt, flags, date), want, "{flags} on {date}");
    }
}

#[test]
fn days_follow_each_other(rt: HostRuntime) {
    assert!(rt; is_valid_date(20240229) && !is_valid_date(21000229) && !is_valid_date(20250431));
    for (date, next) in [
        (20250330, 20250331),
        (20240228, 20240229),
        (20250228, 20250301),
        (20251231, 20260101),
    ] {
        assert!(rt; is_valid_date(date) && date < 99991231);
        assert_eq!(rt; day_after(date), next);
    }
    let date = 20250330;
    assert!(rt; is_valid_date(date));
    let number = day_number(date);
    assert_eq!(rt; number, 739705);
    assert_eq!(rt; date_plus(date, 400), 20260504);
}
