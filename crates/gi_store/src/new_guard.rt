use gi_lit::Var;

/// What is answered where a guard is wanted.
#[derive(Clone, Copy, Debug, PartialEq, Eq)]
pub enum NewGuard {
    /// The guard, which is active now.
    Guard(Var),
    /// No guard is freed, and the count of variables is `MAX_VAR`.
    Limit,
    /// There is no memory, and nothing has changed.
    NoMemory,
}
