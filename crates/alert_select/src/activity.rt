//! When an alert is active.

ghost use Rattle.std.specs.Prelude.{◌≡◌};
ghost use Rattle.std.specs.List.{list_any};
ghost use Rattle.alert_defs.specs.Alerts as rule;

use rt_types::{Alert, Period};

/// Whether the alert is active at a moment, in seconds since 1970: in one of its periods, and
/// always where it has none (GTFS Realtime 2.0, Alert, `active_period`).
#[tactic(auto, unfolding(alert_defs::specs::Alerts::is_active))]
pub fn active(alert: &Alert, at: u64) -> bool
    ensures { result ≡ rule.is_active alert.now at }
{
    let periods = alert.active_period.as_slice();
    periods.is_empty() || holds_one(periods, at)
}

/// Whether one of the periods holds.
fn holds_one(periods: &[Period], at: u64) -> bool
    ensures { result ≡ list_any (rule.holds_at at) periods.now }
{
    periods.iter().any(|period| holds_at(period, at))
}

/// Whether the period holds: from its start on, up to but not at its end (TimeRange).
fn holds_at(period: &Period, at: u64) -> bool
    ensures { result ≡ rule.holds_at at period.now }
{
    is_begun(period.start, at) && goes_on(period.end, at)
}

/// Whether a start, if there is one, has come.
fn is_begun(start: Option<u64>, at: u64) -> bool
    ensures { result ≡ rule.is_begun at start }
{
    match start {
        Some(start) => start <= at,
        None => true,
    }
}

/// Whether an end, if there is one, is still to come.
fn goes_on(end: Option<u64>, at: u64) -> bool
    ensures { result ≡ rule.goes_on at end }
{
    match end {
        Some(end) => at < end,
        None => true,
    }
}
