//! Boards by hand, byte for byte, behind what a vector holds already.

use board_defs::{Row, RowState};
use board_text::{NoMemory, board_json, board_text};
use rt_types::Text;
use std::alloc::Global;
use std::test::Fail;

/// A departure as the timetable has it, of the route 7 to the hill.
fn departure(alloc: Global, at: i64, platform: &str) -> Result<Row, NoMemory> {
    Ok(Row {
        expected: at,
        scheduled: Some(at),
        delay: None,
        state: RowState::Scheduled,
        route: Text::new(alloc, "7")?,
        headsign: Text::new(alloc, "Hill")?,
        trip: Text::new(alloc, "T1")?,
        date: Text::new(alloc, "20250330")?,
        platform: Text::new(alloc, platform)?,
    })
}

/// An added trip, before 1970 and early, whose texts have control characters.
fn odd(alloc: Global) -> Result<Row, NoMemory> {
    Ok(Row {
        expected: -60,
        scheduled: None,
        delay: Some(-5),
        state: RowState::Added,
        route: Text::new(alloc, "\t\"")?,
        headsign: Text::new(alloc, "")?,
        trip: Text::new(alloc, "X\n")?,
        date: Text::new(alloc, "")?,
        platform: Text::new(alloc, "\u{7f}")?,
    })
}

fn appends_text(alloc: Global, name: &str, rows: &[Row], lines: &str) -> Result<bool, NoMemory> {
    let mut out = Vec::new(alloc);
    out.push(b'>')?;
    board_text("ST", name, rows, &mut out)?;
    let Some(behind) = out.as_slice().strip_prefix(b">stop\tST\t") else {
        return Ok(false);
    };
    Ok(behind == lines.as_bytes())
}

fn appends_json(alloc: Global, name: &str, rows: &[Row], value: &str) -> Result<bool, NoMemory> {
    let mut out = Vec::new(alloc);
    out.push(b'>')?;
    board_json("ST", name, rows, &mut out)?;
    let Some(behind) = out.as_slice().strip_prefix(b">") else {
        return Ok(false);
    };
    Ok(behind == value.as_bytes())
}

#[test]
fn two_rows_as_text(rt: HostRuntime) -> Result<(), Fail> {
    let alloc = rt.alloc();
    let mut rows = Vec::new(alloc);
    rows.push(departure(alloc, 1_743_314_400, "S1")?)?;
    rows.push(departure(alloc, 1_743_315_660, "S2")?)?;
    let lines = "Market\n\
        expected\tscheduled\tdelay\tstate\troute\theadsign\ttrip\tdate\tplatform\n\
        1743314400\t1743314400\t-\tscheduled\t7\tHill\tT1\t20250330\tS1\n\
        1743315660\t1743315660\t-\tscheduled\t7\tHill\tT1\t20250330\tS2\n";
    assert!(rt; appends_text(alloc, "Market", rows.as_slice(), lines)?);
    Ok(())
}

#[test]
fn one_row_as_json(rt: HostRuntime) -> Result<(), Fail> {
    let alloc = rt.alloc();
    let mut rows = Vec::new(alloc);
    rows.push(departure(alloc, 1_743_314_400, "S1")?)?;
    let value = "{\"name\":\"Market\",\"rows\":[{\"date\":\"20250330\",\"delay\":null,\
        \"expected\":1743314400,\"headsign\":\"Hill\",\"platform\":\"S1\",\"route\":\"7\",\
        \"scheduled\":1743314400,\"state\":\"scheduled\",\"trip\":\"T1\"}],\"stop\":\"ST\"}";
    assert!(rt; appends_json(alloc, "Market", rows.as_slice(), value)?);
    Ok(())
}

#[test]
fn control_characters(rt: HostRuntime) -> Result<(), Fail> {
    let alloc = rt.alloc();
    let mut rows = Vec::new(alloc);
    rows.push(odd(alloc)?)?;
    let name = "Old\tMarket\n";
    let lines = "Old Market \n\
        expected\tscheduled\tdelay\tstate\troute\theadsign\ttrip\tdate\tplatform\n\
        -60\t-\t-5\tadded\t \"\t\tX \t\t \n";
    assert!(rt; appends_text(alloc, name, rows.as_slice(), lines)?);
    let value =
        "{\"name\":\"Old\\tMarket\\n\",\"rows\":[{\"date\":\"\",\"delay\":-5,\"expected\":-60,\
        \"headsign\":\"\",\"platform\":\"\u{7f}\",\"route\":\"\\t\\\"\",\"scheduled\":null,\
        \"state\":\"added\",\"trip\":\"X\\n\"}],\"stop\":\"ST\"}";
    assert!(rt; appends_json(alloc, name, rows.as_slice(), value)?);
    Ok(())
}
