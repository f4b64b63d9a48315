use gi_lit::{Clauses, Lits};

/// What a frame says: its time from 0, how many variables it took, its clauses, and its literals in
/// the order of the circuit's inputs, latches, outputs, bad states and constraints.
#[derive(Debug, Drop)]
pub struct Frame {
    pub time: u32,
    pub fresh: u32,
    pub added: Clauses,
    pub inputs: Lits,
    pub latches: Lits,
    pub outs: Lits,
    pub bads: Lits,
    pub cons: Lits,
}
