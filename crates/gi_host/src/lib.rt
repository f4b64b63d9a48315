//! Sessions on passes of a shared room, with a worker beside them.
#![tactic(auto)]

mod host;
mod laws;
mod serving;
mod visitor;

pub use host::{host_one, shut_behind};
pub use laws::too_much_is_a_quarter;
pub use serving::{SessionEnd, serve_one};
pub use visitor::Visitor;
