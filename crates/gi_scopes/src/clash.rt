use gi_lit::Lit;
use gi_store::Key;

/// Why unit closure conflicts.
#[derive(Drop)]
pub(crate) enum Clash {
    /// The opposite of an assumption is true.
    Opposite(Lit),
    /// All literals of a clause are false.
    Clause(Key),
}
