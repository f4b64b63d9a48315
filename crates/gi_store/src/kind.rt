/// What a variable is to a store.
#[derive(Clone, Copy, Debug, PartialEq, Eq)]
pub enum VarKind {
    /// A variable of the problem.
    Problem,
    /// A guard in use.
    Active,
    /// A guard that was removed, and comes again.
    Freed,
    /// A variable above the count.
    Beyond,
}
