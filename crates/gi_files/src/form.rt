// The forms of an input.

/// Which form an input has.
#[derive(Clone, Copy, Debug, PartialEq, Eq)]
pub enum Form {
    /// DIMACS CNF.
    Cnf,
    /// iCNF.
    Icnf,
}
