//! Variables, literals, clauses and assignments, and the words in which the solver's contracts
//! speak of them.
#![tactic(auto)]

mod assign;
mod edge;
pub mod laws;
mod list;
mod lit;
mod top;
mod var;

pub use assign::Assign;
pub use edge::Edge;
pub use list::{Clause, Clauses, Guards, List, Lits};
pub use lit::Lit;
pub use top::top_variable;
pub use var::{MAX_VAR, Var};
