// What is known of a variable.

/// What the lines so far say of a variable.
#[derive(Clone, Copy, Debug, PartialEq, Eq)]
pub enum Mark {
    /// Nothing.
    Fresh,
    /// A line uses it, and none defines it yet.
    Used,
    /// A line defines it.
    Defined,
}
