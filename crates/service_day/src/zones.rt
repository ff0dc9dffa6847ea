//! Time zones by a rule, and the instant from which the times of a service day are counted.
ghost use Rattle.std.specs.Prelude.{◌≡◌, ◌↔◌, ◌≤◌, IsTrue, IsOkAnd, IsOk, IsSome, IfOk, IsErrOf, Some, None, ◌≤ℤ◌, pos, negsuc};
ghost use Rattle.text_defs.specs.Dates.{is_day};
ghost use Rattle.service_day.specs.Zone.{rule_of, base_of};

use jiff::civil;
use jiff::tz::TimeZone;
pub use std::alloc::AllocError as NoMemory;
use std::marker::Model;
use texts::{Parts, parts_of};
use thiserror::Error;

/// Half a day, in seconds.
const HALF_DAY: i64 = 43_200;

/// A time zone that a POSIX rule gives, as `CET-1CEST,M3.5.0,M10.5.0/3`. A contract sees the rule.
#[derive(Drop)]
pub struct Zone {
    inner: TimeZone<'static>,
}

impl Model for Zone {
    ghost use Rattle.std.specs.Prelude.{IsTrue};
    ghost use Rattle.jiff_tz.specs.PosixText.{TzText};
    ghost use Rattle.jiff.specs.ZoneView.{plain_zone};
    ghost use Rattle.service_day.specs.Zone.{rule_in, is_by_rule};

    ghost Value = { TzText };

    ghost view = { λ zone. rule_in (plain_zone zone.inner) };

    ghost invariant = { λ zone. IsTrue (is_by_rule (plain_zone zone.inner)) };
}

/// Why a text gives no time zone.
#[derive(Debug, Drop, Error)]
pub enum ZoneFault {
    /// The text is not a rule of the POSIX variable TZ.
    #[error("the time zone is not a POSIX rule")]
    BadZone,
    /// Memory ran out.
    #[error("out of memory")]
    NoMemory,
}

/// Reads a time zone from the rule of a POSIX variable TZ (POSIX.1, "Other Environment Variables",
/// with the times of -167 to 167 hours that RFC 9636 adds). A name of the zone database, as
/// `Europe/Berlin`, is no rule, and daylight saving time needs both its days.
pub fn read_zone(text: &str) -> Result<Zone, ZoneFault>
    ensures ok { IsOk result ↔ IsSome (rule_of text.now) }
    ensures value { IfOk result (λ zone. rule_of text.now ≡ Some zone) }
    ensures refused { IsErrOf result ZoneFault.BadZone ↔ (rule_of text.now ≡ None) }
{
    match TimeZone::posix(text) {
        Ok(inner) => Ok(Zone { inner }),
        Err(_) => Err(ZoneFault::BadZone),
    }
}

/// The instant from which the times of a service day are counted, in seconds of the Unix epoch:
/// 12:00:00 on that date in the zone less twelve hours (GTFS Schedule, "Field Types", Time). Where
/// the clock skips noon or shows it twice, the offset before the change counts.
///
/// The date is a valid day up to the year 3001. It takes no memory, so it always succeeds. The
/// instant is less than a trillion seconds before 1970 and at most as many behind it.
#[tactic(auto, unfolding(text_defs::specs::Dates::is_day))]
pub fn base(zone: &Zone, date: u32) -> Result<i64, NoMemory>
    requires valid { IsTrue (is_day date) }
    requires in_time { date ≤ 30_011_231 }
    ensures value { IsOkAnd result (λ seconds. seconds ≡ base_of zone.now date) }
    ensures early { IfOk result (λ seconds. negsuc 999_999_999_998 ≤ℤ seconds) }
    ensures late { IfOk result (λ seconds. seconds ≤ℤ pos 1_000_000_000_000) }
{
    let Parts { year, month, day } = parts_of(date);
    let noon = civil::datetime(year as i16, month as i8, day as i8, 12, 0, 0, 0);
    match zone.inner.to_timestamp(noon) {
        Ok(instant) => Ok(instant.as_second() - HALF_DAY),
        // The only error is an instant beyond the year 9999, which no date up to 3001 gives.
        Err(_) => Err(NoMemory),
    }
}
