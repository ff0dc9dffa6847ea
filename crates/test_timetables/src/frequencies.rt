//! The trips that frequencies.txt derives, and the first fault of its rows.

ghost use Rattle.std.specs.Prelude.{◌≤◌, ◌<◌, IfOk};
ghost use Rattle.std.specs.List.{All, AllByRecursion};
ghost use Rattle.freq_runs.specs.Trips.{IsPattern, IsRow};

use freq_runs::{Frequency, Pattern, PlaceTime, Times, derive};
use rt_types::Text;
use std::alloc::{AllocError, Global};
use std::test::Fail;

/// T2 of the small city as a pattern: from 08:21:00 to 08:40:00.
fn pattern(alloc: Global) -> Result<Pattern, AllocError>
    ensures { IfOk result IsPattern }
{
    let mut places = Vec::new(alloc);
    places.push(PlaceTime {
        arrival: 30_000,
        departure: 30_060,
    })?;
    places.push(PlaceTime {
        arrival: 31_200,
        departure: 31_200,
    })?;
    Ok(Pattern {
        id: Text::new(alloc, "T2")?,
        times: Times::new(places),
    })
}

/// A row of that number, by which T2 runs every so many seconds from 09:00:00 on, up to an end.
fn row(row: u32, end: u32, headway: u32) -> Frequency
    requires headway { 1 ≤ headway }
    requires end { end < 3_600_000 }
    ensures { IsRow 1 result }
{
    Frequency {
        row,
        pattern: 0,
        start: 32_400,
        end,
        headway,
        exact: true,
    }
}

/// What the rows derive of T2, as text.
fn shown(alloc: Global, taken: &str, rows: &[Frequency]) -> Result<String, AllocError>
    requires { AllByRecursion (IsRow 1) rows.now }
{
    let patterns = vec![in alloc; pattern(alloc)?]?;
    let taken = vec![in alloc; Text::new(alloc, taken)?]?;
    let derived = derive(alloc, patterns.as_slice(), taken.as_slice(), rows);
    format!(in alloc; "{derived:?}")
}

#[test]
fn trips_run_every_half_hour(rt: HostRuntime) -> Result<(), Fail> {
    let trips = shown(rt.alloc(), "T2", &[row(2, 34_260, 1800)])?;
    assert_eq!(rt;
        trips.as_str(),
        "Ok([Derived { pattern: 0, start: 32400, id: \"T2@09:00:00\", times: Times { items: [PlaceTime { arrival: 32400, departure: 32400 }, PlaceTime { arrival: 33540, departure: 33540 }] } }, Derived { pattern: 0, start: 34200, id: \"T2@09:30:00\", times: Times { items: [PlaceTime { arrival: 34200, departure: 34200 }, PlaceTime { arrival: 35340, departure: 35340 }] } }])"
    );
    Ok(())
}

#[test]
fn no_rows_derive_no_trips(rt: HostRuntime) -> Result<(), Fail> {
    let trips = shown(rt.alloc(), "T2", &[])?;
    assert_eq!(rt; trips.as_str(), "Ok([])");
    Ok(())
}

#[test]
fn an_id_may_come_once(rt: HostRuntime) -> Result<(), Fail> {
    let taken = shown(rt.alloc(), "T2@09:30:00", &[row(2, 34_260, 1800)])?;
    assert_eq!(rt; taken.as_str(), "Err(Duplicate { row: 2 })");
    let again = shown(
        rt.alloc(),
        "T2",
        &[row(2, 34_260, 1800), row(3, 34_260, 1800)],
    )?;
    assert_eq!(rt; again.as_str(), "Err(Duplicate { row: 3 })");
    Ok(())
}

/// A trip each second for 2,000,001 seconds, of two places each.
#[test]
fn too_many_places_are_refused(rt: HostRuntime) -> Result<(), Fail> {
    let many = shown(rt.alloc(), "T2", &[row(2, 2_032_401, 1)])?;
    assert_eq!(rt; many.as_str(), "Err(TooMany)");
    Ok(())
}
