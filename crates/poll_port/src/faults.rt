//! Why polls fail, and who hears of it.

ghost use Rattle.std.specs.Prelude.{◌≡◌, List, Option, Some};
ghost use Rattle.poll_port.specs.Polling.{fault_of, heard_after};
ghost use Rattle.poll_port.specs.Hearing.{hears};
ghost use Rattle.poll_port.specs.declared.faults.PollFault.{PollFault};

use crate::messages::Reply;

/// What is wrong with a reply that is no good one.
#[derive(Clone, Copy, Debug, PartialEq, Eq)]
pub enum ReplyFault {
    /// It doesn't begin with a whole head of at most 8192 bytes.
    Head,
    /// Its status is this one, and not 200 (RFC 9110, section 15).
    Status(u16),
    /// Its head doesn't tell how far its message goes: it has a Transfer-Encoding, several
    /// Content-Length, or one that is no number of 1 to 10 digits.
    Length,
    /// It ends before its message does.
    Cut,
}

/// Why a poll failed that was given a link.
#[derive(Clone, Copy, Debug, PartialEq, Eq)]
pub enum PollFault {
    /// Its reply is no good one.
    Unfit(ReplyFault),
    /// An end of its link failed.
    Link,
}

/// Who hears of each poll that fails, as it does. A door that fails is not heard of: it knows why
/// itself.
pub trait PollEar {
    // The faults that were heard of so far, in their order, where these are told.
    ghost heard: { Self → Option (List PollFault) };

    /// Hears why a poll failed.
    fn hear(&mut self, fault: PollFault)
        ensures { heard self.new ≡ hears (Some fault) (heard self.old) };
}

/// Lets it be heard what the reply of a link came to, where the poll has failed.
pub(crate) fn hear_reply<H: PollEar>(ear: &mut H, reply: Reply)
    ensures { H.heard ear.new ≡ heard_after reply (H.heard ear.old) }
{
    if let Some(fault) = fault_of(reply) {
        ear.hear(fault);
    }
}

/// Why a poll with this reply failed, where it did.
fn fault_of(reply: Reply) -> Option<PollFault>
    ensures { result ≡ fault_of reply }
{
    match reply {
        Reply::Message | Reply::TooLong(_) => None,
        Reply::Unfit(fault) => Some(PollFault::Unfit(fault)),
        Reply::Failed => Some(PollFault::Link),
    }
}
