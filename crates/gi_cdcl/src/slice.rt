use gi_lit::{Assign, Clauses, Lits};

/// How a slice of a search ended.
#[derive(Debug, Drop)]
pub enum Slice {
    /// As many clauses were learnt as were allowed, and the last isn't empty.
    Learned,
    /// The values satisfy the clauses in force and the assumptions.
    Sat(Assign),
    /// These of the assumptions fail with the clauses in force under them.
    Unsat(Lits),
    /// The brake told a mark that reaches the serial.
    Braked,
    /// Memory was wanting. The search isn't used again.
    NoMemory,
}

/// What a slice of a search gives: the clauses that it learnt, in order, the greatest mark that it
/// saw, and its end.
#[derive(Debug, Drop)]
pub struct Sliced {
    pub news: Clauses,
    pub mark: u64,
    pub end: Slice,
}
