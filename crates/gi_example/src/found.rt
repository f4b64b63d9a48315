use gi_lit::Lits;

/// How an ask ended.
#[derive(Debug, Drop)]
pub enum Found {
    /// The true literal of each variable.
    Model(Lits),
    /// Assumptions that can't hold together.
    Failed(Lits),
}
