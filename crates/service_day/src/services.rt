//! On which days a service runs.
ghost use Rattle.std.specs.Prelude.{◌≡◌, IsTrue};
ghost use Rattle.text_defs.specs.Dates.{is_day};
ghost use Rattle.service_day.specs.Service as service;

use texts::weekday;

/// A row of calendar_dates.txt, of one service (GTFS Schedule, calendar_dates.txt).
#[derive(Clone, Copy, Debug, PartialEq, Eq)]
pub struct Exception {
    /// The day, as the number of its eight digits YYYYMMDD.
    pub date: u32,
    /// The exception_type: 1 adds the service on that day, and 2 removes it, as any other number
    /// does.
    pub kind: u8,
}

fn exception_on(exceptions: &[Exception], date: u32) -> Option<Exception>
    ensures { result ≡ service.exception_on date exceptions.now }
{
    exceptions
        .iter()
        .copied()
        .find(|exception| exception.date == date)
}

fn is_regular(flags: u8, start: u32, end: u32, date: u32) -> bool
    requires { IsTrue (is_day date) }
    ensures { result ≡ service.is_regular flags start end date }
{
    let is_flagged = (flags >> weekday(date)) & 1 == 1;
    is_flagged && start <= date && date <= end
}

/// Whether a service runs on a valid date. The exception for that date decides; without one the
/// service runs where `flags` has the bit of the weekday, bit 0 for Monday to bit 6 for Sunday, and
/// the date lies from `start` to `end`, both included (GTFS Schedule, calendar.txt and
/// calendar_dates.txt). A service without a row in calendar.txt has no flag. It takes no memory.
#[tactic(auto, unfolding(crate::specs::Service::is_active))]
pub fn active(flags: u8, start: u32, end: u32, exceptions: &[Exception], date: u32) -> bool
    requires { IsTrue (is_day date) }
    ensures { result ≡ service.is_active flags start end exceptions.now date }
{
    match exception_on(exceptions, date) {
        Some(exception) => exception.kind == 1,
        None => is_regular(flags, start, end, date),
    }
}
