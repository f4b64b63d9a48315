//! Doors, at which peers come in, and dials, which go out to one: in memory, and over TCP on this
//! machine alone.
#![tactic(auto)]

mod dial;
mod door;
mod local;
mod memory_dial;
mod memory_door;
mod tcp_dial;
mod tcp_door;
mod tcp_link;

pub use dial::{Dial, Dialed};
pub use door::{Came, Door, Listened};
pub use memory_dial::MemoryDial;
pub use memory_door::MemoryDoor;
pub use tcp_dial::TcpDial;
pub use tcp_door::TcpDoor;
pub use tcp_link::TcpLink;

#[cfg(test)]
mod tests;
