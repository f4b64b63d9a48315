//! A session over a link: calls come as lines, and each is answered by one line before more is
//! read.
#![tactic(auto)]

mod caller;
mod how;
mod laws;
mod session;

pub use caller::{Answered, Caller};
pub use how::How;
pub use laws::{allowed_is_reply, undisturbed_is_whole};
pub use session::{serve_calls, serve_one};
