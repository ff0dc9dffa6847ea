//! Points that the threads of a hub pass.

/// A point that a thread passes.
#[derive(Clone, Copy, Debug, PartialEq, Eq)]
pub enum GatePoint {
    /// The reader of this number, from 0 on, has a link and serves it next.
    BeforeAnswer(u32),
    /// The reader of this number served a link and gives it back next.
    Answered(u32),
    /// The messages of the feed of this number, from 0 on, were taken in as far as they came.
    Ingested(u32),
}

/// What threads pass at certain points. A gate of a test holds who passes, so that an order of
/// events can be had; nothing that is answered depends on a gate.
pub trait Gate {
    /// Passes a point. It may take as long as the gate likes.
    fn pass(&self, at: GatePoint);
}

/// A gate that holds nobody.
#[derive(Clone, Copy, Debug, PartialEq, Eq)]
pub struct OpenGate;

impl Gate for OpenGate {
    fn pass(&self, _at: GatePoint) {}
}
