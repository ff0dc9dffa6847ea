//! The published view of a running hub, and the passes that look at it.
//!
//! A [`Publisher`] shows one view after another; a [`Pass`] looks at the newest one. Looking takes
//! no lock and waits for nobody: two copies of the view are swapped (the crate `left_right`), and a
//! look copies the shared view into the pass. What the layer above may rely on:
//! - [`Publisher::put`] shows a view in one step, and its [`Receipt`] knows the history with its
//!   message at the end; where it finds no memory nothing happened;
//! - after a look that answers, a pass knows the history that was published, which begins with all
//!   that it knew, and its view stands for it; so a look after [`Pass::learn`] shows what was
//!   learned;
//! - a pass that is told to let go of its view (`Oracle::release`) goes on to know the same
//!   history;
//! - [`Publisher::show`] tells a pass all that was published, [`Publisher::tell`] a receipt of it;
//! - [`Publisher::close`] marks the end, behind which nothing is published, and [`Pass::finish`]
//!   makes a pass know the ended history; [`Publisher::abandon`] ends it where nobody needs the
//!   history.
//!
//! What holds a publisher is not dropped: it ends by [`Ending::end`], or within a call that finds
//! no memory. The crate stands on `hub_history` for what is known of the history, and on
//! `board_parts` for views.
#![tactic(auto)]

mod absorbing;
mod copies;
mod ending;
mod glance;
mod opening;
mod pass;
mod publisher;
mod receipt;
mod rule;
mod seats;
mod shown;

pub use ending::Ending;
pub use opening::Snapshots;
pub use pass::Pass;
pub use publisher::Publisher;
pub use receipt::Receipt;
pub use seats::snapshots;
pub use std::alloc::AllocError as NoMemory;
