//! The server: connections come in at a door, one after the other, and each is served on a room of
//! its own.
#![tactic(auto)]

mod closing;
mod connection;
mod drop_passes;
mod keep_passes;
mod serve_end;
mod server;
mod shelf;

pub use drop_passes::DropPasses;
pub use keep_passes::KeepPasses;
pub use serve_end::ServeEnd;
pub use server::serve;
pub use shelf::Shelf;

#[cfg(test)]
mod tests;
