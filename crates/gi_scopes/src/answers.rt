use gi_lit::Lits;

/// The answer to a test.
#[derive(Debug, Drop)]
pub enum Tested {
    /// The literals that the assumptions imply, each behind those of its reasons.
    Implied(Lits),
    /// Some of the assumptions, with which the clauses in force fail.
    Failed(Lits),
    /// There wasn't memory enough.
    NoMemory,
}

/// The answer to the question for a literal's reasons.
#[derive(Debug, Drop)]
pub enum Reasoned {
    /// The literals that imply it together, by one clause of the problem.
    Reasons(Lits),
    /// No open scope lists the literal.
    NotImplied,
    /// There wasn't memory enough.
    NoMemory,
}
