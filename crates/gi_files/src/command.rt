// The two commands over an input.

/// What a command prints of an accepted input.
#[derive(Clone, Copy, Debug, PartialEq, Eq)]
pub enum Command {
    /// Its counts.
    Check,
    /// Its canonical text.
    Convert,
}
