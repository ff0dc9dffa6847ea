//! The id of a derived trip.

ghost use Rattle.std.specs.Prelude.{◌≡◌, IfOk, string_bytes};
ghost use Rattle.freq_runs.specs.Trips.{derived_id, clock_text};

use crate::NoMemory;
use std::alloc::Global;

/// A time as HH:MM:SS, of which the hours have two digits at least.
fn clock_text(alloc: Global, seconds: u32) -> Result<String, NoMemory>
    ensures { IfOk result (λ text. string_bytes text ≡ clock_text seconds) }
{
    let hours = seconds / 3600;
    let minutes = seconds / 60 % 60;
    let seconds = seconds % 60;
    format!(in alloc; "{hours:02}:{minutes:02}:{seconds:02}")
}

/// The id of the trip that the pattern with that id gives at a start, in seconds of the service
/// day.
pub(crate) fn derived_id(alloc: Global, id: &str, start: u32) -> Result<String, NoMemory>
    ensures { IfOk result (λ text. string_bytes text ≡ derived_id id.now start) }
{
    let clock = clock_text(alloc, start)?;
    format!(in alloc; "{id}@{clock}")
}
