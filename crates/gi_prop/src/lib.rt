//! The trail of literals that are true, and unit propagation over attached clauses.
#![tactic(auto)]

mod follow;
pub mod laws;
mod look;
mod positions;
mod prop;
mod room;
mod starts;
mod trail;
mod truth;
mod unwatched;
mod why;

pub use prop::Prop;
pub use trail::Trail;
