//! Whole inputs of DIMACS CNF and iCNF from a link, and the commands that check and convert them.
#![tactic(auto)]

mod command;
mod commands;
mod counts;
mod feeding;
mod form;
mod form_value;
mod laws;
mod reading;
mod refusals;

pub use commands::{Done, check, convert};
pub use form::Form;
pub use form_value::FormValue;
pub use laws::undisturbed_is_answered;
pub use reading::{FileInput, read_file};
pub use refusals::write_refused;
