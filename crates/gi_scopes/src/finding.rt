use gi_lit::Lits;

/// What a test found.
#[derive(Drop)]
pub(crate) enum Finding {
    /// The literals that it lists.
    Listed(Lits),
    /// Some of the assumptions, which fail.
    Failing(Lits),
}
