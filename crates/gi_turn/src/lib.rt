// One value that many callers use, one turn at a time, under one history of what they did.
#![tactic(auto)]

mod enter;
mod laws;
mod plays;
mod rule;
mod seat;
mod stands;
mod turnstile;
mod view;
mod words;

pub use laws::{numbers_differ, sole_again, sole_is_alone};
pub use seat::Seat;
pub use stands::{Entered, Stands};
pub use turnstile::Turnstile;
pub use view::{Entry, View};
