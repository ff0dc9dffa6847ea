//! What time it is.
ghost use Rattle.std.specs.Prelude.{◌≡◌, ℕ, ◌≤◌, List, Option};
ghost use Rattle.std.specs.Option.{option_map};
ghost use Rattle.text_defs.specs.Moments.{last_moment};
ghost use Rattle.hub_outside.specs.Clock.{ShowsFirst, after_reading};

/// A clock of seconds since 1970-01-01 00:00:00 UTC.
pub trait Clock {
    // The readings that it will show, where it tells them. There is always one at least.
    ghost ahead: { Self → Option (List ℕ) };

    /// The moment, from 0 to the last one, 9999-12-31 23:59:59 UTC. A clock that tells its readings
    /// shows the first of them, and drops it unless it is the last.
    fn now(&mut self) -> u64
        ensures range { result ≤ last_moment }
        ensures reading { ShowsFirst (ahead self.old) result }
        ensures ahead { ahead self.new ≡ option_map after_reading (ahead self.old) };
}
