//! AIGER 1.9, the ASCII form and the binary one: what such files say, and what may be wrong with one.
#![tactic(auto)]

mod aig;
mod fault;
mod fields;
mod gates;
mod groups;
mod head;
mod inputs;
mod judge;
mod laws;
mod limits;
pub mod line_writers;
mod lists;
mod machine;
mod mark;
mod marks;
mod named;
mod page;
mod phase;
mod read;
mod reader;
mod row;
mod sections;
mod symbol;
mod table;
mod taken;
mod writing;

pub use aig::{Aig, AndGate, Latch, Reset, Symbol};
pub use fault::{AigCode, AigFault};
pub use gates::{acyclic_places, places_by_level};
pub use inputs::Inputs;
pub use laws::{
    answers_stand, cycles_stay, faults_stand, gate_faults_are_shown, gates_have_levels,
    no_continuation_helps, one_answer, read_is_said, said_is_good, said_is_read, undefined_stays,
    used_and_undefined, written_is_read,
};
pub use limits::MOST_ITEMS;
pub use lists::{EdgeLists, Edges, Gates, Latches, Symbols};
pub use read::AigRead;
pub use reader::AigReader;
pub use table::Table;
pub use writing::write_ascii;
