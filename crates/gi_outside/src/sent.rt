// What a writer answers.

/// Whether a text was written.
#[derive(Clone, Copy, Debug, PartialEq, Eq)]
pub enum Sent {
    /// It was, whole.
    Done,
    /// A write failed, and the text lacks its last byte at least.
    Failed,
}
