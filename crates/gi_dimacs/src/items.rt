// The items of an iCNF file.

use gi_lit::{Clause, List, Lits};

/// What stands in an iCNF file.
#[derive(Debug, Drop)]
pub enum Item {
    /// A clause.
    Clause(Clause),
    /// Asks for a solve of all clauses before it under these assumptions.
    Ask(Lits),
}

/// The items of a file.
pub type Items = List<Item>;
