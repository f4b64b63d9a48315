ghost use Rattle.std.specs.Prelude.{◌≡◌, IsTrue, true};
ghost use Rattle.gi_wire.specs.Text.{is_answer};

use gi_model::Reply;
use gi_outside::{MemoryLink, Sent};
use gi_text::Bytes;
use gi_wire::write_reply;
use std::alloc::Global;

/// Whether this line is written for an answer.
fn is_written(alloc: Global, reply: &Reply, line: &str) -> bool
    requires { is_answer reply.now ≡ true }
{
    let (cuts, reads, writes) = (Vec::new(alloc), Vec::new(alloc), Vec::new(alloc));
    let mut link = MemoryLink::new(alloc, Bytes::new(alloc), cuts, reads, writes);
    let sent = write_reply(1, reply, &mut link);
    sent == Sent::Done && link.written().strip_suffix(b"\n") == Some(line.as_bytes())
}

/// Whether a line has words for the answer: all have them but those to work, to a pass without
/// calls left and to one that had nothing to do.
fn has_words(reply: &Reply) -> bool
    ensures { IsTrue result → is_answer reply.now ≡ true }
{
    match reply {
        Reply::Worked { .. } => false,
        Reply::Idle => false,
        Reply::Spent => false,
        Reply::Done => true,
        Reply::Vars(_) => true,
        Reply::Guard(_) => true,
        Reply::Implied(_) => true,
        Reply::Failed(_) => true,
        Reply::Reasons(_) => true,
        Reply::Started(_) => true,
        Reply::Status { .. } => true,
        Reply::Unsat { .. } => true,
        Reply::Model(_) => true,
        Reply::Known(_) => true,
        Reply::Clause(_) => true,
        Reply::LoadedCnf { .. } => true,
        Reply::Bye => true,
        Reply::Refused(_) => true,
        Reply::NoMemory => true,
    }
}

/// Whether an answer is this line, as to line 1 of an input.
pub fn is_told(alloc: Global, reply: &Reply, line: &str) -> bool {
    if !has_words(reply) {
        return false;
    }
    is_written(alloc, reply, line)
}
