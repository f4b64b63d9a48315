// What a file says.
use crate::inputs::Inputs;
use crate::lists::{EdgeLists, Edges, Gates, Latches, Symbols};
use gi_lit::Edge;
use gi_text::Bytes;

/// What a latch holds at first.
#[derive(Clone, Copy, Debug, PartialEq, Eq)]
pub enum Reset {
    /// False. A line without a reset means this.
    Zero,
    /// True.
    One,
    /// Either: the latch is uninitialised, and its line names the latch's own literal.
    Free,
}

/// A latch: the literal that it defines, the literal that it takes over at the next step, and what it holds at first.
#[derive(Clone, Copy, Debug, PartialEq, Eq)]
pub struct Latch {
    pub lit: Edge,
    pub next: Edge,
    pub reset: Reset,
}

/// An and-gate: the literal that it defines, and its operands.
#[derive(Clone, Copy, Debug, PartialEq, Eq)]
pub struct AndGate {
    pub lhs: Edge,
    pub rhs0: Edge,
    pub rhs1: Edge,
}

/// A name for what stands at a place of a section.
#[derive(Drop)]
pub struct Symbol {
    /// The section: one of the bytes `i`, `l`, `o`, `b`, `c`, `j`, `f` for inputs, latches, outputs, bad states,
    /// constraints, justice properties and fairness.
    pub kind: u8,
    /// The place in that section, from 0.
    pub place: u32,
    /// The name, of one byte at least.
    pub name: Bytes,
}

/// What an AIGER 1.9 file says, in either form. Each list is in the file's order.
#[derive(Drop)]
pub struct Aig {
    /// The greatest variable that the file may name.
    pub max: u32,
    /// The literals that the inputs define.
    pub inputs: Inputs,
    pub latches: Latches,
    pub outs: Edges,
    /// The bad states.
    pub bads: Edges,
    /// The constraints.
    pub cons: Edges,
    /// The justice properties: each is a list of literals.
    pub justice: EdgeLists,
    /// The fairness constraints.
    pub fair: Edges,
    pub gates: Gates,
    pub symbols: Symbols,
    /// The bytes of the comment, if there is one.
    pub comment: Option<Bytes>,
}
