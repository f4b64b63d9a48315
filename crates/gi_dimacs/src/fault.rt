// What is wrong with a file.
use thiserror::Error;

/// What is wrong with a line of a file.
#[derive(Clone, Copy, Debug, PartialEq, Eq, Error)]
pub enum CnfCode {
    /// The first line that is neither blank nor a comment isn't the format's header, or there is
    /// none.
    #[error("the header is wrong or missing")]
    Header,
    /// A word that has to be a number begins with neither a digit nor `-`.
    #[error("a word is no number")]
    Word,
    /// A word begins so and is no number: `1x`, `-`, `-0`.
    #[error("a number is misspelt")]
    Number,
    /// A count, a variable, or the clauses or literals so far pass their limit.
    #[error("a limit is passed")]
    Limit,
    /// A clause or an ask has no 0.
    #[error("a list has no 0")]
    Unterminated,
}

/// The first line that is wrong, and how.
#[derive(Clone, Copy, Debug, PartialEq, Eq, Error)]
#[error("line {line}: {code}")]
pub struct CnfFault {
    /// The line, from 1. What is wrong at the end of the input is at the number of lines plus one.
    pub line: u64,
    /// What is wrong with it.
    pub code: CnfCode,
}
