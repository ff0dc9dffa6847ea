//! A small timetable is asked for all that it has.

use sample_city::{city, place};
use sched_types::{Counts, NamedFeed, NamedPlan, Plan, PlanName, Plans, Run};
use std::test::Fail;

/// Threads may share such a value.
fn is_shared<T: Send + Sync>(_value: &T) {}

#[test]
fn rows_are_found_by_their_ids(rt: HostRuntime) -> Result<(), Fail> {
    let plan = city(rt.alloc())?;
    let found = [
        plan.stop_of("ST"),
        plan.trip_of("T2"),
        plan.route_of("R7"),
        plan.agency_of("A"),
    ];
    assert_eq!(rt; found, [Some(4), Some(2), Some(0), Some(0)]);
    let unknown = [
        plan.stop_of("S"),
        plan.trip_of("T3"),
        plan.route_of(""),
        plan.agency_of("a"),
    ];
    assert_eq!(rt; unknown, [None; 4]);
    Ok(())
}

#[test]
fn rows_are_read_by_their_numbers(rt: HostRuntime) -> Result<(), Fail> {
    let plan = city(rt.alloc())?;
    let names = [
        plan.stop(4).name.as_str(),
        plan.trip(1).id.as_str(),
        plan.route(0).short.as_str(),
    ];
    assert_eq!(rt; names, ["Market", "T1", "7"]);
    let children = [plan.children(4), plan.children(0)];
    assert_eq!(rt; children, [[0, 1].as_slice(), [].as_slice()]);
    assert_eq!(rt; [plan.places(1) as usize, plan.stop_times(1).len()], [4, 4]);
    assert_eq!(rt; plan.place(1, 1), place(2, 2, 29400, 29400));
    let counts = Counts {
        agencies: 1,
        stops: 5,
        routes: 1,
        trips: 3,
        times: 8,
        days: 3,
    };
    assert_eq!(rt; plan.counts(), counts);
    Ok(())
}

#[test]
fn days_and_runs_are_told(rt: HostRuntime) -> Result<(), Fail> {
    let plan = city(rt.alloc())?;
    let days = [
        plan.day_of(20250331),
        plan.day_of(20250401),
        plan.day_of(20250328),
    ];
    assert_eq!(rt; days, [Some(2), None, None]);
    assert_eq!(rt; (plan.date(1), plan.base(1)), (20250330, 1743285600));
    let runs = [
        plan.runs(Run { trip: 0, day: 2 }),
        plan.runs(Run { trip: 0, day: 3 }),
        plan.runs(Run { trip: 3, day: 0 }),
    ];
    assert_eq!(rt; runs, [true, false, false]);
    Ok(())
}

#[test]
fn trips_are_found_by_their_departures(rt: HostRuntime) -> Result<(), Fail> {
    let plan = city(rt.alloc())?;
    for (direction, time, trips) in [
        (0, 28800, [1].as_slice()),
        (0, 90600, [0].as_slice()),
        (1, 28800, [].as_slice()),
        (0, 29400, [].as_slice()),
    ] {
        assert_eq!(rt;
            plan.departing(0, direction, time),
            trips,
            "{direction} {time}"
        );
    }
    Ok(())
}

#[test]
fn a_timetable_without_rows_has_none(rt: HostRuntime) -> Result<(), Fail> {
    let plan = Plan::plain(rt.alloc());
    assert_eq!(rt; plan.stop_of("ST"), None);
    assert_eq!(rt; plan.day_of(19700101), None);
    assert_eq!(rt; plan.trips(), 0);
    Ok(())
}

#[test]
#[tactic(auto, unfolding(text_defs::specs::Names::is_name))]
fn timetables_and_feeds_stand_in_their_order(rt: HostRuntime) -> Result<(), Fail> {
    let alloc = rt.alloc();
    let plans = vec![in alloc;
        NamedPlan {
            name: PlanName::new(alloc, "plain")?,
            prefix: PlanName::new(alloc, "")?,
            plan: Plan::plain(alloc),
        },
    ]?;
    let feeds = vec![in alloc;
        NamedFeed {
            name: PlanName::new(alloc, "a")?,
            plan: 0,
            max_age: 60,
        },
    ]?;
    let all = Plans::new(plans, feeds);
    is_shared(&all);
    assert_eq!(rt; all.plans().len(), 1);
    assert_eq!(rt; all.feeds()[0].name.as_str(), "a");
    assert_eq!(rt; all.max_age(0), 60);
    Ok(())
}
