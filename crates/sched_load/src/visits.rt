//! The stop times of all trips, trip by trip.

ghost use Rattle.std.specs.Prelude.{◌≡◌, ◌≤◌, ◌<◌, ◌==◌, List, length, filter, IfOk, IfSome, OnOk};
ghost use Rattle.std.specs.Bool.{OnTrue};
ghost use Rattle.std.specs.List.Sorted.{IsNonDecreasingBy};
ghost use Rattle.sched_load.specs.Gathering.{BelowAll};
ghost use Rattle.sched_load_defs.specs.Files.{most_rows};
ghost use Rattle.sched_load.specs.Visits.{AreApart, AreArranged, AreGathered, Arranges, FirstTwin, IsSortedStably, IsSortedUnless, RisesByTrip, key_of};
ghost use Rattle.sched_load.specs.declared.visits.Visit.{Visit};
ghost use Rattle.gtfs_rows.specs.declared.rows.StopRow.{StopRow};
ghost use Rattle.gtfs_rows.specs.declared.rows.TripRow.{TripRow};
ghost use Rattle.gtfs_rows.specs.declared.rows.StopTimeRow.{StopTimeRow};

use gtfs_rows::Column;
use row_tables::row_number;
use sched_load_defs::{File, LoadFault};
use std::alloc::{AllocError, Global};
use std::collections::BTreeMap;

/// When a place is reached and left, in seconds after noon less twelve hours.
#[derive(Clone, Copy, Debug, PartialEq, Eq)]
pub(crate) struct Stay {
    /// When it is reached.
    pub(crate) arrival: u32,
    /// When it is left.
    pub(crate) departure: u32,
}

/// A row of stop_times.txt that refers to known rows.
#[derive(Clone, Copy, Debug, PartialEq, Eq)]
pub(crate) struct Visit {
    /// The number of its trip, in byte order of the ids.
    pub(crate) trip: u32,
    /// The number of its stop, in byte order of the ids.
    pub(crate) stop: u32,
    /// Its `stop_sequence`.
    pub(crate) sequence: u32,
    /// Its times, unless both are empty.
    pub(crate) stay: Option<Stay>,
    /// Its `pickup_type`, 0 where it is empty.
    pub(crate) pickup: u32,
}

/// The rows of stop_times.txt up to the first that refers to nothing.
#[derive(Drop)]
pub(crate) struct Gathered {
    /// The visits of these rows, in the order of the file.
    pub(crate) visits: Vec<Visit>,
    /// The first column of the row behind them that refers to nothing, if there is such a row.
    pub(crate) unknown: Option<Column>,
}

fn key_of(trip: u32, sequence: u32) -> u64
    ensures { result ≡ key_of trip sequence }
{
    u64::from(trip) * 4_294_967_296 + u64::from(sequence)
}

/// The first visit that has the trip and the stop_sequence of an earlier one.
fn first_twin(alloc: Global, visits: &[Visit]) -> Result<Option<usize>, AllocError>
    ensures value { IfOk result (FirstTwin visits.now) }
    ensures within { IfOk result (λ found. IfSome found (λ place. place < length visits.now)) }
{
    let mut seen = BTreeMap::new(alloc);
    for (place, visit) in visits.iter().enumerate() {
        if seen
            .insert(key_of(visit.trip, visit.sequence), ())?
            .is_some()
        {
            return Ok(Some(place));
        }
    }
    Ok(None)
}

/// Whether the visits of each trip stand by rising stop_sequence, as they do in most files.
fn rises(alloc: Global, visits: &[Visit], trips: usize) -> Result<bool, AllocError>
    requires { BelowAll trips visits.now }
    ensures { IfOk result (λ rises. OnTrue rises (RisesByTrip visits.now)) }
{
    let mut ends = vec![in alloc; 0u64; trips]?;
    for visit in visits {
        let sequence = u64::from(visit.sequence);
        let trip = visit.trip as usize;
        if sequence < ends[trip] {
            return Ok(false);
        }
        ends[trip] = sequence + 1;
    }
    Ok(true)
}

/// A function of its own, so that its proof is found: where its branches join, what is known of the
/// twin.
fn twin_of(alloc: Global, visits: &[Visit], is_rising: bool) -> Result<Option<usize>, AllocError>
    requires { OnTrue is_rising (RisesByTrip visits.now) }
    ensures value { IfOk result (FirstTwin visits.now) }
    ensures within { IfOk result (λ found. IfSome found (λ place. place < length visits.now)) }
{
    if is_rising {
        return Ok(None);
    }
    first_twin(alloc, visits)
}

fn by_sequence(visits: &mut Vec<Visit>) -> Result<(), AllocError>
    ensures { OnOk result (IsSortedStably (λ v. v.sequence) visits.old.items visits.new.items) }
{
    visits.sort_by_key(|visit| visit.sequence)?;
    Ok(())
}

fn by_trip(visits: &mut Vec<Visit>) -> Result<(), AllocError>
    ensures { OnOk result (IsSortedStably (λ v. v.trip) visits.old.items visits.new.items) }
{
    visits.sort_by_key(|visit| visit.trip)?;
    Ok(())
}

/// A function of its own, so that its proof is found: where its branches join, what the visits are
/// then.
fn sort_unless(visits: &mut Vec<Visit>, is_rising: bool) -> Result<(), AllocError>
    ensures { OnOk result (IsSortedUnless is_rising visits.old.items visits.new.items) }
{
    if is_rising {
        return Ok(());
    }
    by_sequence(visits)
}

/// Puts the visits trip by trip, those of a trip by rising stop_sequence.
fn sort(visits: &mut Vec<Visit>, is_rising: bool) -> Result<(), AllocError>
    requires rising { OnTrue is_rising (RisesByTrip visits.old.items) }
    requires apart { AreApart visits.old.items (length visits.old.items) }
    ensures { OnOk result (AreArranged visits.old.items visits.new.items) }
{
    sort_unless(visits, is_rising)?;
    by_trip(visits)?;
    Ok(())
}

/// The visits trip by trip, those of a trip by rising stop_sequence; or the first row that refers
/// to nothing or has the trip and the stop_sequence of an earlier one.
pub(crate) fn arrange(
    alloc: Global,
    gathered: Gathered,
    trips: usize,
) -> Result<Vec<Visit>, LoadFault>
    requires below { BelowAll trips gathered.visits.items }
    requires few { length gathered.visits.items ≤ most_rows }
    requires room { IfSome gathered.unknown (λ _. length gathered.visits.items < most_rows) }
    ensures { (ts : List TripRow) (ss : List StopRow) (rows : List StopTimeRow)
        → AreGathered ts ss rows gathered.visits.items gathered.unknown
        → Arranges ts ss rows result }
{
    let Gathered {
        mut visits,
        unknown,
    } = gathered;
    let is_rising = rises(alloc, visits.as_slice(), trips)?;
    if let Some(place) = twin_of(alloc, visits.as_slice(), is_rising)? {
        return Err(LoadFault::Duplicate {
            file: File::StopTimes,
            row: row_number(place),
        });
    }
    if let Some(column) = unknown {
        return Err(LoadFault::UnknownRef {
            file: File::StopTimes,
            row: row_number(visits.as_slice().len()),
            column,
        });
    }
    sort(&mut visits, is_rising)?;
    Ok(visits)
}

/// The visits of a trip, of visits trip by trip.
pub(crate) fn visits_of(visits: &[Visit], trip: u32) -> &[Visit]
    requires { IsNonDecreasingBy (λ (v : Visit). v.trip) visits.now }
    ensures { result.now ≡ filter (λ v. v.trip == trip) visits.entry.now }
{
    let start = visits.partition_point(|visit| visit.trip < trip);
    let (_, behind) = visits.split_at(start);
    let count = behind.partition_point(|visit| visit.trip <= trip);
    &behind[..count]
}
