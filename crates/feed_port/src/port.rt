//! What an ingester asks for messages.

ghost use Rattle.std.specs.Prelude.{◌≡◌, ℕ, ◌≤◌, List, Option};
ghost use Rattle.feed_defs.specs.History.{longest_message};
ghost use Rattle.hub_outside.specs.Buffer.{room_of};
ghost use Rattle.feed_port.specs.Ports.{Answers, GoesOnToTell, HasPortCause};

use hub_core::Refusal;
use hub_outside::Buf;

/// What one ask of a [`FeedPort`] came to.
#[derive(Clone, Copy, Debug, PartialEq, Eq)]
pub enum PortAnswer {
    /// The buffer holds the next message.
    Message,
    /// The next message has more than [`feed_defs::LONGEST_MESSAGE`] bytes, so many as far as they
    /// were seen. It is gone.
    TooLong(u64),
    /// No message is left.
    End,
    /// The port failed: its count of faults rose.
    Failed,
}

/// The messages of a feed, in their order.
pub trait FeedPort: Drop {
    // The messages that asks will hand in from here on, where the port tells them. One that is
    // above the limit is answered as too long.
    ghost ahead: { Self → Option (List (List ℕ)) };

    // How many asks failed so far.
    ghost faults: { Self → ℕ };

    /// Takes the next message into the buffer, which is cleared first. It takes no memory, and
    /// leaves the buffer with room for the longest message.
    fn next(&mut self, into: &mut Buf) -> PortAnswer
        requires room { longest_message ≤ room_of into.old }
        ensures room { longest_message ≤ room_of into.new }
        ensures answer { Answers result (ahead self.old) (ahead self.new) into.new.bytes }
        ensures told { GoesOnToTell (ahead self.old) (ahead self.new) (faults self.old)
            (faults self.new) }
        ensures cause { HasPortCause result (faults self.old) (faults self.new) };

    /// Hears why the message that was handed in last is refused. What is ahead stays, and so does
    /// the count of faults. A port with no use for it does nothing.
    fn hear(&mut self, _refusal: &Refusal)
        ensures ahead { ahead self.new ≡ ahead self.old }
        ensures faults { faults self.new ≡ faults self.old }
    {}
}

impl FeedPort for Box<dyn FeedPort + Send> {
    ghost ahead = { λ b. (FeedPort-box b).ahead b.value };

    ghost faults = { λ b. (FeedPort-box b).faults b.value };

    fn next(&mut self, into: &mut Buf) -> PortAnswer {
        let inner = &mut **self;
        inner.next(into)
    }

    fn hear(&mut self, refusal: &Refusal) {
        let inner = &mut **self;
        inner.hear(refusal)
    }
}
