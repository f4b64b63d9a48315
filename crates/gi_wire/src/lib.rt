//! The line protocol: the calls that lines ask for, and the lines that answer them.
#![tactic(auto)]

mod begun;
mod call;
mod call_lines;
mod fields;
mod going_on;
mod laws;
mod literals;
mod reader;
mod reply;
mod told;
mod wrapping;

pub use begun::MAX_JOINED;
pub use call::{CallRead, Kind, read_call};
pub use call_lines::write_call;
pub use going_on::{may_go_on, plus_at};
pub use laws::{
    answers_are_lines, answers_differ, calls_are_read_back, calls_differ, items_stay,
    lines_are_joined, loads_are_items,
};
pub use reader::{NextRequest, Reader, Request, RequestKind};
pub use reply::write_reply;
pub use told::{ReplyRead, read_reply};
