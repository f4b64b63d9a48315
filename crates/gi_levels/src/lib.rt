//! The levels of gates that come in any order, and the gate that closes a cycle.
#![tactic(auto)]

mod laws;
mod levels;
mod order;

pub use laws::{cycle_is_one, levels_are_told, order_is_whole};
pub use levels::{Levels, Node, first_cycle, levels_of};
pub use order::by_level;
