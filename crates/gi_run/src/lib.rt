//! The top call, and all that stands between a program's words and its exit.
#![tactic(auto)]

mod drilling;
mod running;
mod serving;
mod solving;
mod starting;
mod telling;

pub use running::{Outcome, run};
pub use starting::{Ending, start};
pub use telling::{Telling, telling_of};
