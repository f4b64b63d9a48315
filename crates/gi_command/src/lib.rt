//! The words of a command line: which command they are, and what people are told.
#![tactic(auto)]

mod command;
mod fault;
mod help;
mod page;
mod parsing;
mod reading;
mod usage;
mod words;

pub use command::Command;
pub use fault::{fault_text, refusal_text};
pub use page::{Page, page_asked, print_page};
pub use reading::read_words;
pub use usage::usage_of;
pub use words::{Words, take_words};
