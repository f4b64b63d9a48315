//! What the service sees of the world: a peer that gives bytes and takes bytes, in memory or over
//! standard input and output.
#![tactic(auto)]

mod link;
mod memory;
mod outbox;
mod sending;
mod sent;
mod standard;

pub use link::{Got, Link, Piece, Put};
pub use memory::MemoryLink;
pub use outbox::Outbox;
pub use sending::write_all;
pub use sent::Sent;
pub use standard::StdLink;
