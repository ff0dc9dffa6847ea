//! The files of a small timetable, each as it is and turned about, and each fault.

use gtfs_rows::{
    Column, RowFault, StopTimes, read_agencies, read_calendar, read_exceptions, read_frequencies,
    read_routes, read_stop_times, read_stops, read_trips,
};
use std::alloc::{AllocError, Global};
use std::fmt;
use std::test::Fail;

/// The rows or the fault, as text.
fn shown<R: fmt::Debug + Drop>(
    alloc: Global,
    rows: Result<Vec<R>, RowFault>,
) -> Result<String, AllocError> {
    format!(in alloc; "{rows:?}")
}

#[test]
fn reads_agencies(rt: HostRuntime) -> Result<(), Fail> {
    for bytes in [
        "agency_id,agency_name\nA,City\n",
        "\u{feff} agency_name ,\tagency_id\r\nCity, A\t",
    ] {
        let rows = shown(rt.alloc(), read_agencies(rt.alloc(), bytes.as_bytes()))?;
        assert_eq!(rt; rows.as_str(), "Ok([AgencyRow { agency_id: \"A\" }])");
    }
    Ok(())
}

#[test]
fn reads_stops(rt: HostRuntime) -> Result<(), Fail> {
    for bytes in [
        "stop_id,stop_name,location_type,parent_station\nST,Market,1,\nS1,Market A,0,ST\nS2,Market B,0,ST\nS3,Harbour,,\nS4,Hill,,\n",
        "\u{feff}stop_name,note,stop_id,parent_station,location_type\nMarket,,ST,,1\n\"Market A\",x,S1,ST,0,more\n\nMarket B,,S2,ST,0\nHarbour,,S3\n Hill ,,S4",
    ] {
        let rows = shown(rt.alloc(), read_stops(rt.alloc(), bytes.as_bytes()))?;
        assert_eq!(rt;
            rows.as_str(),
            "Ok([StopRow { stop_id: \"ST\", stop_name: \"Market\", location_type: Some(1), parent_station: \"\" }, StopRow { stop_id: \"S1\", stop_name: \"Market A\", location_type: Some(0), parent_station: \"ST\" }, StopRow { stop_id: \"S2\", stop_name: \"Market B\", location_type: Some(0), parent_station: \"ST\" }, StopRow { stop_id: \"S3\", stop_name: \"Harbour\", location_type: None, parent_station: \"\" }, StopRow { stop_id: \"S4\", stop_name: \"Hill\", location_type: None, parent_station: \"\" }])"
        );
    }
    Ok(())
}

#[test]
fn reads_routes(rt: HostRuntime) -> Result<(), Fail> {
    for bytes in [
        "route_id,agency_id,route_short_name,route_type\nR7,A,7,3\n",
        "\u{feff}route_type,route_long_name,route_id,agency_id,route_short_name,x\n03,,R7,A,7",
    ] {
        let rows = shown(rt.alloc(), read_routes(rt.alloc(), bytes.as_bytes()))?;
        assert_eq!(rt;
            rows.as_str(),
            "Ok([RouteRow { route_id: \"R7\", agency_id: \"A\", route_short_name: \"7\", route_long_name: \"\", route_type: 3 }])"
        );
    }
    Ok(())
}

#[test]
fn reads_trips(rt: HostRuntime) -> Result<(), Fail> {
    for bytes in [
        "route_id,service_id,trip_id,trip_headsign,direction_id\nR7,WK,T1,Hill,0\nR7,WK,T2,Hill,0\nR7,WK,N1,Hill,0\n",
        "\u{feff}service_id,trip_id,route_id,direction_id,x,trip_headsign\nWK,T1,R7,0,,Hill\nWK,T2,R7,00,,Hill\nWK,N1,R7,0,,Hill,\n",
    ] {
        let rows = shown(rt.alloc(), read_trips(rt.alloc(), bytes.as_bytes()))?;
        assert_eq!(rt;
            rows.as_str(),
            "Ok([TripRow { trip_id: \"T1\", route_id: \"R7\", service_id: \"WK\", trip_headsign: \"Hill\", direction_id: Some(0) }, TripRow { trip_id: \"T2\", route_id: \"R7\", service_id: \"WK\", trip_headsign: \"Hill\", direction_id: Some(0) }, TripRow { trip_id: \"N1\", route_id: \"R7\", service_id: \"WK\", trip_headsign: \"Hill\", direction_id: Some(0) }])"
        );
    }
    Ok(())
}

#[test]
fn reads_stop_times(rt: HostRuntime) -> Result<(), Fail> {
    for bytes in [
        "trip_id,arrival_time,departure_time,stop_id,stop_sequence,pickup_type\nT1,08:00:00,08:00:00,S1,1,\nT1,,,S3,2,\nT1,08:20:00,08:21:00,S2,5,\nT1,08:30:00,08:30:00,S4,9,\nT2,08:21:00,08:21:00,S2,1,0\nT2,8:40:00,8:40:00,S4,2,0\nN1,25:10:00,25:10:00,S1,1,\nN1,25:40:00,25:40:00,S4,2,\n",
        "\u{feff}stop_sequence,trip_id,stop_id,x,departure_time,arrival_time,pickup_type\n1,T1,S1,,08:00:00,08:00:00\n2,T1,S3\n5,T1,S2,,08:21:00,08:20:00\n9,T1,S4,,08:30:00,08:30:00\n1,T2,S2,,08:21:00,08:21:00,0\n2,T2,S4,,8:40:00,8:40:00,0\n1,N1,S1,,25:10:00,25:10:00\n2,N1,S4,,25:40:00,25:40:00",
    ] {
        let rows = shown(rt.alloc(), read_stop_times(rt.alloc(), bytes.as_bytes()))?;
        assert_eq!(rt;
            rows.as_str(),
            "Ok([StopTimeRow { trip_id: \"T1\", stop_id: \"S1\", stop_sequence: 1, arrival_time: Some(28800), departure_time: Some(28800), pickup_type: None }, StopTimeRow { trip_id: \"T1\", stop_id: \"S3\", stop_sequence: 2, arrival_time: None, departure_time: None, pickup_type: None }, StopTimeRow { trip_id: \"T1\", stop_id: \"S2\", stop_sequence: 5, arrival_time: Some(30000), departure_time: Some(30060), pickup_type: None }, StopTimeRow { trip_id: \"T1\", stop_id: \"S4\", stop_sequence: 9, arrival_time: Some(30600), departure_time: Some(30600), pickup_type: None }, StopTimeRow { trip_id: \"T2\", stop_id: \"S2\", stop_sequence: 1, arrival_time: Some(30060), departure_time: Some(30060), pickup_type: Some(0) }, StopTimeRow { trip_id: \"T2\", stop_id: \"S4\", stop_sequence: 2, arrival_time: Some(31200), departure_time: Some(31200), pickup_type: Some(0) }, StopTimeRow { trip_id: \"N1\", stop_id: \"S1\", stop_sequence: 1, arrival_time: Some(90600), departure_time: Some(90600), pickup_type: None }, StopTimeRow { trip_id: \"N1\", stop_id: \"S4\", stop_sequence: 2, arrival_time: Some(92400), departure_time: Some(92400), pickup_type: None }])"
        );
    }
    Ok(())
}

#[test]
fn reads_calendar(rt: HostRuntime) -> Result<(), Fail> {
    for bytes in [
        "service_id,monday,tuesday,wednesday,thursday,friday,saturday,sunday,start_date,end_date\nWK,1,1,1,1,1,1,1,20250329,20250331\n",
        "\u{feff}end_date,start_date,sunday,saturday,friday,thursday,wednesday,tuesday,monday,service_id,x\n20250331,20250329,1,1,1,1,1,1,1,WK\n",
    ] {
        let rows = shown(rt.alloc(), read_calendar(rt.alloc(), bytes.as_bytes()))?;
        assert_eq!(rt;
            rows.as_str(),
            "Ok([CalendarRow { service_id: \"WK\", monday: 1, tuesday: 1, wednesday: 1, thursday: 1, friday: 1, saturday: 1, sunday: 1, start_date: 20250329, end_date: 20250331 }])"
        );
    }
    Ok(())
}

#[test]
fn reads_exceptions(rt: HostRuntime) -> Result<(), Fail> {
    for bytes in [
        "service_id,date,exception_type\nWK,20240229,2\n",
        "\u{feff}exception_type,x,service_id,date\n2,,WK,20240229",
    ] {
        let rows = shown(rt.alloc(), read_exceptions(rt.alloc(), bytes.as_bytes()))?;
        assert_eq!(rt;
            rows.as_str(),
            "Ok([ExceptionRow { service_id: \"WK\", date: 20240229, exception_type: 2 }])"
        );
    }
    Ok(())
}

#[test]
fn reads_frequencies(rt: HostRuntime) -> Result<(), Fail> {
    for bytes in [
        "trip_id,start_time,end_time,headway_secs,exact_times\nT2,09:00:00,09:31:00,1800,1\n",
        "\u{feff}exact_times,x,headway_secs,end_time,start_time,trip_id\n1,,01800,9:31:00,9:00:00,T2",
    ] {
        let rows = shown(rt.alloc(), read_frequencies(rt.alloc(), bytes.as_bytes()))?;
        assert_eq!(rt;
            rows.as_str(),
            "Ok([FrequencyRow { trip_id: \"T2\", start_time: 32400, end_time: 34260, headway_secs: 1800, exact_times: Some(1) }])"
        );
    }
    Ok(())
}

#[test]
fn tells_the_row_past_the_limit(rt: HostRuntime) -> Result<(), Fail> {
    let mut bytes = Vec::new(rt.alloc());
    for _ in 0..4_000_002u32 {
        bytes.extend_from_slice(b"A\n")?;
    }
    let fault = read_agencies(rt.alloc(), bytes.as_slice()).err();
    assert_eq!(rt; fault, Some(RowFault::TooMany));
    Ok(())
}

#[test]
fn gives_stop_times_one_by_one(rt: HostRuntime) -> Result<(), Fail> {
    let bytes =
        b"trip_id,stop_id,stop_sequence,arrival_time,departure_time\nT1,S1,1,8:00:00,\nT1,,2,,\n";
    let mut rows = StopTimes::open(rt.alloc(), bytes)?;
    let first = rows.next(rt.alloc())?;
    assert_eq!(rt; first.map_or(0, |row| row.stop_sequence), 1);
    Ok(())
}

#[test]
fn tells_faults(rt: HostRuntime) -> Result<(), Fail> {
    for (bytes, fault) in [
        ("", RowFault::MissingColumn(Column::ServiceId)),
        (
            "exception_type,service_id\n",
            RowFault::MissingColumn(Column::Date),
        ),
        (
            "service_id,date,exception_type\nWK,20250330,1\nWK,20230229,1\n",
            RowFault::BadValue {
                row: 3,
                column: Column::Date,
            },
        ),
    ] {
        assert_eq!(rt;
            read_exceptions(rt.alloc(), bytes.as_bytes()).err(),
            Some(fault)
        );
    }
    let bytes = b"agency_id\nA\n\xff\n";
    let fault = RowFault::NotText {
        row: 3,
        column: Column::AgencyId,
    };
    assert_eq!(rt; read_agencies(rt.alloc(), bytes).err(), Some(fault));
    Ok(())
}
