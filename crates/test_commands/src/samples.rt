//! Small samples, with ample memory.
use hub_gen::{HubFault, Sample, generate, run_sample};
use std::alloc::Global;
use std::test::Fail;

/// Whether a line was printed, and that one.
fn is_line(line: Result<Vec<u8>, HubFault>, told: &str) -> bool {
    match line {
        Ok(line) => line.as_slice() == told.as_bytes(),
        Err(_) => false,
    }
}

/// All trips begin in the first ten minutes of a day, and the boards count from noon on.
#[test]
fn no_trip_goes_at_noon(rt: HostRuntime) -> Result<(), Fail> {
    let line = run_sample(rt.alloc(), 1, 10, 5);
    assert!(rt;
        is_line(
            line,
            "trips 10 messages 5 accepted 5 refused 0 rows 0 delays 0\n"
        )
    );
    Ok(())
}

#[test]
fn trips_go_at_noon(rt: HostRuntime) -> Result<(), Fail> {
    let line = run_sample(rt.alloc(), 7, 800, 5);
    assert!(rt;
        is_line(
            line,
            "trips 800 messages 5 accepted 5 refused 0 rows 116 delays 4090\n"
        )
    );
    Ok(())
}

/// A trip begins each minute of a day, so those from the 1,441st on begin where the first did.
#[test]
fn trips_go_round_a_day(rt: HostRuntime) -> Result<(), Fail> {
    let line = run_sample(rt.alloc(), 7, 2300, 5);
    assert!(rt;
        is_line(
            line,
            "trips 2300 messages 5 accepted 5 refused 0 rows 227 delays 128\n"
        )
    );
    Ok(())
}

/// The file at that path.
fn file_at<'a>(sample: &'a Sample, path: &str) -> Option<&'a [u8]> {
    for file in &sample.files {
        if file.path.as_str() == path {
            return Some(file.bytes.as_slice());
        }
    }
    None
}

#[test]
fn two_trips(rt: HostRuntime) -> Result<(), Fail> {
    let sample = generate(rt.alloc(), 1, 2, 1)?;
    let trips = b"trip_id,route_id,service_id,trip_headsign,direction_id\nT0,R0,X,,0\nT1,R1,X,,0\n";
    assert_eq!(rt; file_at(&sample, "gen/trips.txt"), Some(trips.as_slice()));
    assert_eq!(rt; file_at(&sample, "gen/calendar_dates.txt"), None);
    Ok(())
}
