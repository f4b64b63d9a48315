//! The whole machine: a store of clauses, a search over them, and scopes.
#![tactic(auto)]

mod asking;
mod attaching;
mod edits;
mod facts;
pub mod laws;
mod loading;
mod machine;
mod queries;
mod scopes;
mod solver;
mod solver_core;
mod solving;

pub use solver_core::Core;
pub use solving::Work;
