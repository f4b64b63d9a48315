// The lists of what a file says.
use crate::aig::{AndGate, Latch, Symbol};
use gi_lit::{Edge, List};

/// Literals.
pub type Edges = List<Edge>;

/// Lists of literals.
pub type EdgeLists = List<Edges>;

/// Latches.
pub type Latches = List<Latch>;

/// Gates.
pub type Gates = List<AndGate>;

/// Symbols.
pub type Symbols = List<Symbol>;

/// The sizes of justice properties.
pub type Sizes = List<u32>;
