//! Which stops and instants are those that a board asks for, and what counts at a moment.

ghost use Rattle.std.specs.Prelude.{◌≡◌, ◌+◌, ◌<◌, ◌≤◌, ◌&&◌, length, pos, int_le, int_lt};
ghost use Rattle.text_defs.specs.Moments.{last_moment};
ghost use Rattle.board_defs.specs.Feeds.{counts_at};
ghost use Rattle.board_defs.specs.Rows.{is_asked};

use sched_types::Plan;

/// Whether a stop, by its number, is the asked one or names it as its parent_station.
pub fn is_asked(plan: &Plan, asked: u32, stop: u32) -> bool
    requires { stop < length plan.now.stops }
    ensures { result ≡ is_asked plan.now asked stop }
{
    stop == asked || plan.stop(stop).parent == Some(asked)
}

/// Whether an instant lies in the window that begins at a moment and lasts so many seconds; both
/// instants are in seconds since 1970.
pub fn is_within(at: u64, span: u32, instant: i64) -> bool
    requires { at ≤ last_moment }
    ensures { result ≡ (int_le (pos at) instant && int_lt instant (pos (at + span))) }
{
    at as i64 <= instant && instant < (at + u64::from(span)) as i64
}

/// Whether what has that stamp counts at a moment, in a feed of that max_age; all in seconds, stamp
/// and moment since 1970. A max_age of 0 is no end.
pub fn counts_at(max_age: u64, stamp: u64, at: u64) -> bool
    ensures { result ≡ counts_at max_age stamp at }
{
    max_age == 0 || at.saturating_sub(stamp) <= max_age
}
