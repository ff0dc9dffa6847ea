//! Which trips the rows name.

ghost use Rattle.std.specs.Prelude.{◌≡◌, List, IfOk, filter, map, not};
ghost use Rattle.gtfs_rows.specs.declared.rows.FrequencyRow.{FrequencyRow};
ghost use Rattle.freq_runs.specs.Known.{AreKeys};
ghost use Rattle.sched_load_defs.specs.Frequencies as rule;

use crate::timed::TimedTrip;
use gtfs_rows::FrequencyRow;
use std::alloc::{AllocError, Global};
use std::collections::BTreeMap;

/// The ids that the rows name, to be looked up.
pub(crate) fn named_ids<'a>(
    alloc: Global,
    rows: &'a [FrequencyRow],
) -> Result<BTreeMap<&'a str, ()>, AllocError>
    ensures { IfOk result (λ ids. AreKeys ids (map (λ row. row.trip_id) rows.entry.now)) }
{
    let mut ids = BTreeMap::new(alloc);
    for row in rows {
        ids.insert(row.trip_id.as_str(), ())?;
    }
    Ok(ids)
}

/// Whether a row names the trip.
fn is_named(ids: &BTreeMap<&str, ()>, timed: &TimedTrip) -> bool
    ensures { (rows : List FrequencyRow) → AreKeys ids.now (map (λ row. row.trip_id) rows)
        → result ≡ rule.is_named rows timed.now }
{
    ids.contains_key(timed.id().as_str())
}

/// The trips that rows name, and the others.
#[derive(Drop)]
pub(crate) struct Parted {
    pub(crate) patterns: Vec<TimedTrip>,
    pub(crate) others: Vec<TimedTrip>,
}

/// The trips that these rows name, and the others, each in the order in which they stood.
pub(crate) fn parted_trips(
    alloc: Global,
    timed: Vec<TimedTrip>,
    ids: &BTreeMap<&str, ()>,
) -> Result<Parted, AllocError>
    ensures patterns { (rows : List FrequencyRow) → AreKeys ids.now (map (λ row. row.trip_id) rows)
        → IfOk result (λ parted. parted.patterns.items ≡ filter (rule.is_named rows) timed.items) }
    ensures others { (rows : List FrequencyRow) → AreKeys ids.now (map (λ row. row.trip_id) rows)
        → IfOk result (λ parted. parted.others.items
        ≡ filter (λ one. not (rule.is_named rows one)) timed.items) }
{
    let mut patterns = Vec::new(alloc);
    let mut others = Vec::new(alloc);
    for one in timed {
        if is_named(ids, &one) {
            patterns.push(one)?;
        } else {
            others.push(one)?;
        }
    }
    Ok(Parted { patterns, others })
}
