//! Conflict-driven clause learning (CDCL) under assumptions.
//!
//! A search decides a literal, a level each time, and propagates what clauses then force, by two
//! watched literals a clause (`gi_prop`). Where all literals of a clause are false, the conflict is
//! analyzed: the clause is resolved with reasons backwards along the trail, up to the first unique
//! implication point (1-UIP). The clause that comes is learnt as it is, without minimization, and
//! is kept. The search jumps back (backjumping) to the least level where the clause forces a
//! literal, and goes on. A conflict at level 0 refutes the clauses.
//!
//! Assumptions are decided first. One that is false ends the search; its analysis goes back to the
//! assumptions that fail together. Then variables are decided by a move-to-front queue (VMTF): the
//! variables of learnt clauses move to the front, 32 clauses at a time, and the first that has no
//! value is decided, with the value that it had last (phase saving). Each slice begins with the
//! root level alone, which is a restart, and that level is kept from slice to slice; the caller
//! gives slices their lengths.
#![tactic(auto)]

mod analyze;
mod assume;
mod brake;
mod decide;
mod empty;
pub mod laws;
mod learn;
mod no_brake;
mod order;
mod run;
mod search;
mod search_state;
mod seen;
mod slice;
mod stamp;
mod step;
mod varlist;

pub use brake::Brake;
pub use no_brake::NoBrake;
pub use search::Search;
pub use slice::{Slice, Sliced};
