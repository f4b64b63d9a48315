//! The shared room: one machine, which any number of threads use in turns, under one legal history.
//!
//! A `Room` holds the machine behind a turnstile. Each caller has a `Pass`; by it calls are made,
//! one entry of the history each, and slices of work done on a running solve. A pass is split where
//! one more caller comes, and joined again when it goes. Two things wait for no turn: a glance at
//! the history's length and the machine's phase, and an ask that a solve be stopped, which the
//! slice of work that is under way finds.
#![tactic(auto)]

mod ear;
mod entry;
mod gate;
mod laws;
mod pass;
mod phases;
mod room;
mod shared_core;
mod turn;
mod worker;

pub use gate::{Gate, OpenGate};
pub use laws::sole_again;
pub use pass::Pass;
pub use room::Room;
