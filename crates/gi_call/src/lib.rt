//! A client over two links: what a user asks is sent to a server as calls, and what the server
//! answers is printed. It believes no false model.
#![tactic(auto)]

mod answer_lines;
mod asking;
mod client;
mod end;
mod front;
mod laws;
mod server;

pub use client::call_one;
pub use end::CallEnd;
pub use laws::{done_is_exact, undisturbed_is_said};
