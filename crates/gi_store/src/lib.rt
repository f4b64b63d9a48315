//! The clauses of a problem and the learnt ones, each under a key, and the guards that come and go.
#![tactic(auto)]

mod group_key;
mod guards;
mod key;
mod kind;
mod laws;
mod new_guard;
mod slots;
mod store;

pub use key::Key;
pub use kind::VarKind;
pub use laws::edits_are_of_the_problem;
pub use new_guard::NewGuard;
pub use store::Store;
