// One session.
ghost use Rattle.std.specs.Prelude.{◌≡◌, ◌+◌, ◌^◌, ◌<◌, ◌≤◌, ℕ, [], Some, true, false, MatchOption, IfNone};
ghost use Rattle.gi_outside.specs.Link.{Rose};
ghost use Rattle.gi_outside.specs.World.{World};
ghost use Rattle.gi_wire.specs.Gives.{MayBeAsked};
ghost use Rattle.gi_wire.specs.Source.{ahead, last_line};
ghost use Rattle.gi_wire.specs.Text.{is_answer};
ghost use Rattle.gi_net.specs.Leads.{Leads};
ghost use Rattle.gi_net.specs.MidSession.{MidSession};
ghost use Rattle.gi_net.specs.Over.{Over};
ghost use Rattle.gi_net.specs.Standing.{Standing};
ghost use Rattle.gi_net.specs.Told.{AnswersItem, Closes, TellsReply, TellsNoMemory};
ghost use Rattle.gi_model.specs.Fits.{fits};
ghost use Rattle.gi_wire.specs.declared.reader.RequestKind.TheVariants as asked;

use crate::{Answered, Caller, How};
use gi_model::{Call, Refusal, Reply};
use gi_outside::{Got, Link, Sent};
use gi_wire::{NextRequest, Reader, Request, RequestKind, write_reply};
use std::alloc::Global;

// The most bytes that a session takes, but for its last read.
const MOST_BYTES: u64 = 1 << 62;

// The most bytes that one read asks for.
const PIECE: usize = 4096;

/// Serves a link: each item of its input, which is a line with all that is joined to it or a load
/// with the bytes behind its line, is a call by `caller` or refused, and its answer is written. It
/// reads at most 4,096 bytes at a time, answers every whole item before the next read, and reads
/// nothing once the session is over. It asks for memory only for the bytes that it reads, for the
/// lists of guards and literals, the joined lines and the bytes of loads, and for the caller's
/// entries.
pub fn serve_calls<C: Caller, L: Link>(alloc: Global, caller: &mut C, link: &mut L) -> How
    ensures over { Over (L.state link.old) (L.state link.new) (C.standing caller.old)
        (C.standing caller.new) (Rose (C.starved caller.old) (C.starved caller.new)) result }
    ensures led { Leads C.kept caller.old caller.new }
{
    let mut reader = Reader::new(alloc);
    let mut taken = 0u64;
    'session: while taken < MOST_BYTES {
        match read_more(link, &mut reader, &mut taken) {
            Some(how) => return how,
            None => {}
        }
        match answer_items(caller, link, &mut reader) {
            Some(how) => return how,
            None => {}
        }
    }
    How::TooMuch
}

/// The same, where nothing is to be known of the caller but its standing.
pub fn serve_one<C: Caller, L: Link>(alloc: Global, caller: &mut C, link: &mut L) -> How
    ensures { Over (L.state link.old) (L.state link.new) (C.standing caller.old)
        (C.standing caller.new) (Rose (C.starved caller.old) (C.starved caller.new)) result }
{
    serve_calls(alloc, caller, link)
}

// Reads a piece.
fn read_more<L: Link>(link: &mut L, reader: &mut Reader, taken: &mut u64) -> Option<How>
    requires room { taken.old < 2 ^ 62 }
    requires whole { ahead reader.old false [] ≡ [] }
    requires open { reader.old.lines.ended ≡ false }
    ensures ended { IfNone result ((L.state link.new).ended ≡ reader.new.lines.ended) }
    ensures most { IfNone result (taken.new ≤ taken.old + 4096) }
    ensures count { IfNone result
        (last_line reader.new + taken.old ≤ last_line reader.old + taken.new) }
    ensures grows { IfNone result (reader.new.lines.ended ≡ false → taken.old < taken.new) }
    ensures session { (start : World) (first here : Standing) (before now : ℕ)
        → MidSession start (L.state link.old) first here reader.old taken.old
        → MatchOption result (MidSession start (L.state link.new) first here reader.new taken.new)
        (λ by. Over start (L.state link.new) first here (Rose before now) by) }
{
    let mut buffer = [0u8; PIECE];
    match link.read(&mut buffer) {
        Got::Failed => Some(How::ReadFault),
        Got::End => {
            reader.end();
            None
        }
        Got::Bytes(n) => {
            *taken += n as u64;
            match reader.feed(&buffer[..n]) {
                Ok(()) => None,
                Err(_) => Some(tell_no_memory(link)),
            }
        }
    }
}

// Answers every item that is whole, or is the last one.
fn answer_items<C: Caller, L: Link>(
    caller: &mut C,
    link: &mut L,
    reader: &mut Reader,
) -> Option<How>
    requires { last_line reader.old < 2 ^ 63 }
    ensures none { IfNone result
        ((ahead reader.new false [] ≡ []) × (reader.new.lines.ended ≡ false)) }
    ensures ended { IfNone result
        (((L.state link.new).ended ≡ (L.state link.old).ended)
        × (reader.new.lines.ended ≡ reader.old.lines.ended)) }
    ensures count { IfNone result (last_line reader.new ≤ last_line reader.old) }
    ensures starved { C.starved caller.old ≤ C.starved caller.new }
    ensures session { (start : World) (first : Standing) (before taken : ℕ)
        → (L.state link.old).ended ≡ reader.old.lines.ended → before ≤ C.starved caller.old
        → MidSession start (L.state link.old) first (C.standing caller.old) reader.old taken
        → MatchOption result (MidSession start (L.state link.new) first (C.standing caller.new)
        reader.new taken)
        (λ by. Over start (L.state link.new) first (C.standing caller.new) (Rose before (C.starved caller.new)) by) }
    ensures led { Leads C.kept caller.old caller.new }
{
    'items: loop {
        match reader.next_item() {
            NextRequest::Request(item) => match answer(caller, link, item) {
                Some(how) => return Some(how),
                None => {}
            },
            NextRequest::More => return None,
            NextRequest::Done => return Some(How::Eof),
            NextRequest::NoMemory => return Some(tell_no_memory(link)),
        }
    }
}

// Answers one item.
fn answer<C: Caller, L: Link>(caller: &mut C, link: &mut L, item: Request) -> Option<How>
    requires { MayBeAsked item.asked }
    ensures item { AnswersItem result item (C.standing caller.old) (C.standing caller.new)
        (Rose (C.starved caller.old) (C.starved caller.new)) (L.state link.old) (L.state link.new) }
    ensures starved { C.starved caller.old ≤ C.starved caller.new }
    ensures led { Leads C.kept caller.old caller.new }
{
    let Request { line, asked } = item;
    match asked {
        RequestKind::Call(call) => answer_call(caller, link, line, call),
        RequestKind::Syntax => tell(link, line, &Reply::Refused(Refusal::Syntax)),
        RequestKind::Long => tell(link, line, &Reply::Refused(Refusal::Long)),
    }
}

// Makes the call that an item asks for, and answers its line.
fn answer_call<C: Caller, L: Link>(
    caller: &mut C,
    link: &mut L,
    line: u64,
    call: Call,
) -> Option<How>
    requires { fits call ≡ true }
    ensures item { AnswersItem result (record { line = line; asked = asked.Call call })
        (C.standing caller.old) (C.standing caller.new)
        (Rose (C.starved caller.old) (C.starved caller.new)) (L.state link.old) (L.state link.new) }
    ensures starved { C.starved caller.old ≤ C.starved caller.new }
    ensures kept { C.kept caller.old caller.new }
{
    match caller.call(call) {
        Answered::Recorded => tell(link, line, caller.reply()),
        Answered::NoMemory => Some(tell_no_memory(link)),
        Answered::Spent => Some(How::TooMuch),
    }
}

// Answers a line.
fn tell<L: Link>(link: &mut L, line: u64, reply: &Reply) -> Option<How>
    requires { is_answer reply.now ≡ true }
    ensures { TellsReply result line reply.now (L.state link.old) (L.state link.new) }
{
    match write_reply(line, reply, link) {
        Sent::Failed => Some(How::WriteFault),
        Sent::Done => ending_of(reply),
    }
}

// How a reply ends a session, if it does.
fn ending_of(reply: &Reply) -> Option<How>
    ensures { Closes result reply.now }
{
    match reply {
        Reply::Bye => Some(How::Bye),
        Reply::NoMemory => Some(How::NoMemory),
        Reply::Refused(Refusal::Dead) => Some(How::Dead),
        _ => None,
    }
}

// TellsReply that memory was wanting.
fn tell_no_memory<L: Link>(link: &mut L) -> How
    ensures { TellsNoMemory result (L.state link.old) (L.state link.new) }
{
    match write_reply(0, &Reply::NoMemory, link) {
        Sent::Done => How::NoMemory,
        Sent::Failed => How::WriteFault,
    }
}
