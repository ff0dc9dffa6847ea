//! The copies take in the whole view at each step.

use crate::NoMemory;
use crate::shown::{Face, Shown};
use left_right::Absorb;
use std::sync::Arc;

impl Absorb<Shown> for Shown {
    type State = Face;

    ghost use Rattle.std.specs.Arc.{arc_value};

    ghost state = { λ shown. record { view = arc_value shown.view; line = shown.line } };

    ghost applied = { λ face operation. record {
      view = arc_value operation.view;
      line = operation.line;
    } };

    fn absorb_first(&mut self, operation: &Shown, _other: &Shown) -> Result<(), NoMemory> {
        self.view = Arc::try_clone(&operation.view)?;
        self.line = operation.line.again();
        Ok(())
    }

    fn absorb_second(&mut self, operation: Shown, _other: &Shown) -> Result<(), Shown> {
        *self = operation;
        Ok(())
    }
}
