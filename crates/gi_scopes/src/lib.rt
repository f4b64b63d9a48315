//! Scopes: a test opens one with some assumptions and lists what they imply by unit closure, or
//! finds that they fail.
//!
//! The trail is kept between calls, with a level for each open scope:
//!
//!     places   0        starts[0]      starts[1]      length of the trail
//!              |--------|--------------|--------------|
//!     level    0        1              2
//!              forced   assumptions    assumptions
//!                       + forced       + forced
//!
//! Up to the end of each level it is the unit closure under the assumptions up to its scope: each
//! literal is an assumption that nothing forced, or was forced by a clause of the problem, whose
//! key is its reason; each assumption is there; and no clause forces more. The propagator goes with
//! the trail and has just the keys of the problem's clauses. So a test adds a level, `untest` takes
//! the last one away, and `edited` gives all up, after which the next test builds it anew. All this
//! depends on the plain clauses and groups with their keys alone.
#![tactic(auto)]

mod answers;
mod clash;
mod close;
mod closed_trail;
mod find;
mod finding;
mod implied;
mod kept;
pub mod laws;
mod level;
mod lists;
mod outcome;
mod scopes;
mod short;
mod start;
mod steps;
mod trace;

pub use answers::{Reasoned, Tested};
pub use scopes::Scopes;
pub use steps::Steps;
