//! Bytes, the lines of bytes that come in pieces, and the words and numbers of a line.
#![tactic(auto)]

mod bytes;
mod digits;
mod laws;
mod lines;
mod numbers;
mod parts;
mod queue;
mod words;

pub use bytes::Bytes;
pub use digits::{Digits, read_digits};
pub use laws::{cuts_do_not_matter, lines_end_at_lf, spellings_are_read, words_are_runs};
pub use lines::{Lines, Look, MAX_LINE, Next, Raw};
pub use numbers::{Number, read_number};
pub use parts::skip;
pub use words::Words;
