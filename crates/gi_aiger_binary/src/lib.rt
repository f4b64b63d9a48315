//! The binary form of AIGER 1.9: values are numbered anew, and written.
#![tactic(auto)]

mod differences;
mod laws;
mod numbers;
mod renumbering;
mod writing;

pub use laws::{
    good_is_writable, meaning_stays, numbered_is_good, numbers_stay, texts_are_read_back,
    values_are_numbered,
};
pub use renumbering::renumber;
pub use writing::write_binary;
