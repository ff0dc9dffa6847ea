//! Where connections come from.
ghost use Rattle.std.specs.Prelude.{◌≡◌, ℕ, ◌≤◌, Option};
ghost use Rattle.hub_outside.specs.Doors.{Links, HandsOut, MayGiveBack, GivesBack, HasDoorCause};

use crate::sinks::Sink;
use crate::sources::Source;

/// What a door that was asked for the next link answers.
#[derive(Drop)]
pub enum DoorAnswer<I, O> {
    /// A link: where its bytes come from, and where the answers go.
    Link(I, O),
    /// No further link comes, now and later.
    End,
    /// The outside failed: the count of faults rose.
    Failed,
}

/// A place at which links come in, one after another, as connections at a port or a list in memory.
/// Each link that it hands out is given back to it once it is served.
pub trait Door {
    /// Where the bytes of a link come from.
    type In: Source;

    /// Where the answers on a link go.
    type Out: Sink;

    // The links that are ahead, those that were given back, and how many are out, where the door
    // tells them.
    ghost links: { Self → Option (Links Self.In Self.Out) };

    // How many calls failed so far.
    ghost faults: { Self → ℕ };

    /// Hands out the next link, which it may have to wait for.
    fn next(&mut self) -> DoorAnswer<Self::In, Self::Out>
        ensures links { HandsOut result (links self.old) (links self.new) }
        ensures cause { HasDoorCause result (faults self.old) (faults self.new) };

    /// Takes a link back that was served. One that was handed out has to be out.
    fn done(&mut self, input: Self::In, output: Self::Out)
        requires { MayGiveBack (links self.old) }
        ensures links { GivesBack input output (links self.old) (links self.new) }
        ensures cause { faults self.old ≤ faults self.new };
}
