//! The end of a hub.

ghost use Rattle.std.specs.Prelude.{◌≡◌, IfSome};
ghost use Rattle.std.specs.List.{All};
ghost use mathlib.Core.List.{IsPrefix};
ghost use Rattle.hub_shared.specs.Seats.{IsOf};
ghost use Rattle.hub_serve.specs.Steps.{Closes};

use crate::naming::OfHub;
use crate::readers::HubPass;
use hub_shared::{FeedSeat, Hub, close_hub};
use snapshot_cell::Ending;
use std::marker::Model;
use std::sync::Wait;

/// What closing a hub came to. Only `close` makes one, and who tells what a run came to asks for
/// it, so nothing is told before the hub is closed. A contract sees whether an ending was had.
#[derive(Drop)]
pub(crate) struct Closed {
    has_ending: bool,
}

impl Model for Closed {
    ghost use Rattle.std.specs.Prelude.{Bool};

    ghost Value = { Bool };

    ghost view = { λ closed. closed.has_ending };
}

impl Closed {
    /// Whether an ending was had.
    pub(crate) fn has_ending(&self) -> bool
        ensures { result ≡ self.now }
    {
        self.has_ending
    }
}

/// Closes the hub with its seats, and tells its readers. There is no ending where closing found no
/// memory.
pub(crate) fn close<R: Wait, H: OfHub>(
    rt: &R,
    hub: Hub,
    seats: &mut [FeedSeat],
    passes: &mut [HubPass<H>],
) -> Closed
    requires hub { hub ≡ H.ties }
    requires seats { All (λ seat. seat.ties ≡ hub) seats.old }
    ensures seats { seats.new ≡ seats.old }
    ensures closes { Closes hub seats.old passes.old result }
{
    match close_hub(rt, hub, seats) {
        Ok(ending) => {
            finish_all(passes, &ending);
            ending.end(rt);
            Closed { has_ending: true }
        }
        Err(_) => Closed { has_ending: false },
    }
}

/// All readers know the ended history, which begins with what each knew.
fn finish_all<H: OfHub>(passes: &mut [HubPass<H>], ending: &Ending)
    requires { IsOf ending.now H.ties }
    ensures { All (λ pass. IsPrefix pass.line.log ending.now.log) passes.old }
{
    for i in 0..passes.len() {
        passes[i].finish(ending);
    }
}

/// Ends a hub of which nothing is asked.
pub(crate) fn discard<R: Wait>(rt: &R, hub: Hub) {
    if let Ok(ending) = close_hub(rt, hub, &mut []) {
        ending.end(rt);
    }
}
