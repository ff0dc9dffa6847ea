//! What is done at a place.

ghost use Rattle.std.specs.Prelude.{ℕ};

/// Work on the three items of one place.
pub trait PlaceJob<A, B, C> {
    // Which items it takes at a place.
    ghost accepts: { Self → ℕ → A → B → C → Type 0 };

    // What it makes of them.
    ghost does: { Self → ℕ → A → B → C → A → B → C → Type 0 };

    /// Does the work at a place of that number.
    fn work(&self, place: usize, x: &mut A, y: &mut B, z: &mut C)
        requires { accepts self.now place x.old y.old z.old }
        ensures { does self.now place x.old y.old z.old x.new y.new z.new };
}
