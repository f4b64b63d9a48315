//! The drill: a script of calls for a session, made from a seed, and what is counted among the
//! answers.
#![tactic(auto)]

mod counted;
mod generator;
mod instance;
mod kind;
mod laws;
mod printing;
mod script;
mod tally;
mod text;

pub use counted::{Counted, CountedSession, serve_counted};
pub use laws::{
    calls_alone_are_counted, plan_satisfies, script_is_read, script_is_short, script_is_taken,
    sessions_play, tallies_grow,
};
pub use printing::print_tally;
pub use script::write_script;
pub use tally::Tally;
