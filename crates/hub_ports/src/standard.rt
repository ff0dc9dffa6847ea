//! The numbers of standard input, output and error.

use std::{fs, rt};

/// Where nothing comes from.
const NOTHING: &str = "/dev/null";

/// Files that have those of the numbers 0 to 2 that the program was started without: the system
/// gives each file the least number that is free. While they are held, nothing that is opened
/// later, as the connection to a sender, is taken for standard input, output or error. They can't
/// be written to, so what is told there is lost, as where a number is closed.
#[derive(Drop)]
pub struct HeldNumbers<F> {
    first: Option<F>,
    second: Option<F>,
    third: Option<F>,
}

impl<F> HeldNumbers<F> {
    /// Opens them, before all else is opened. What can't be opened is left out.
    pub fn hold<R: rt::Files<File = F>>(rt: &R) -> HeldNumbers<F> {
        HeldNumbers {
            first: fs::open(rt, NOTHING).ok(),
            second: fs::open(rt, NOTHING).ok(),
            third: fs::open(rt, NOTHING).ok(),
        }
    }
}
