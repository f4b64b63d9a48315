//! Files of clauses, solved by calls to a machine, and the answers printed.
#![tactic(auto)]

mod answer;
mod file_steps;
mod laws;
mod making;
mod printing;
mod solving;
mod steps;

pub use answer::Solved;
pub use laws::{
    asks_are_written, calls_are_answered, failures_are_true, models_are_true, undisturbed_is_whole,
    unknown_is_spent,
};
pub use solving::solve;
