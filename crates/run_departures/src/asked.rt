//! What is asked for.

ghost use Rattle.std.specs.Prelude.{◌≡◌, ◌+◌, ◌≤◌, pos};
ghost use Rattle.text_defs.specs.Moments.{last_moment};

/// A stop, by its number, and the window in which departures are expected.
#[derive(Clone, Copy)]
pub struct Asked {
    /// The number of the stop.
    pub stop: u32,
    /// The moment from which departures count, in seconds since 1970.
    pub at: u64,
    /// For how many seconds they count.
    pub span: u32,
}

impl Asked {
    /// The instant from which departures count, in seconds since 1970.
    pub(crate) fn start(self) -> i64
        requires { self.at ≤ last_moment }
        ensures { result ≡ pos self.at }
    {
        self.at as i64
    }

    /// The instant before which they count.
    pub(crate) fn end(self) -> i64
        requires { self.at ≤ last_moment }
        ensures { result ≡ pos (self.at + self.span) }
    {
        (self.at + u64::from(self.span)) as i64
    }
}
