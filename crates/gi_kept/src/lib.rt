//! What a client keeps of a session, which answers a call can have, and when a model that a server
//! tells is true to what is kept.
#![tactic(auto)]

mod guarded;
mod kept;
mod load;
mod marks;
mod replies;
mod truth;

pub use guarded::Guarded;
pub use kept::Kept;
pub use replies::may_answer;
