// What a client has of its server.
use crate::answer_lines::AnswerLines;
use gi_kept::Kept;
use std::alloc::Global;

// A client's side of a server.
#[derive(Drop)]
pub struct Asking {
    pub alloc: Global,
    // The lines that the server gave.
    pub lines: AnswerLines,
    // How many bytes it gave.
    pub taken: u64,
    // How many calls it answered.
    pub sent: u64,
    // What is kept by its answers.
    pub kept: Kept,
}
