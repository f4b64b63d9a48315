// The client.
ghost use Rattle.std.specs.Prelude.{◌≡◌, ◌+◌, ◌^◌, ◌<◌, ◌≤◌, ◌⊎◌, ℕ, List, [], false, true, length, IfNone, MatchOption};
ghost use Rattle.gi_outside.specs.World.{World};
ghost use Rattle.gi_kept.specs.Exchanges.{Exchange};
ghost use Rattle.gi_wire.specs.CallText.{has_line};
ghost use Rattle.gi_wire.specs.Source.{ahead, last_line};
ghost use Rattle.gi_wire.specs.Text.{is_answer};
ghost use Rattle.gi_wire.specs.declared.reader.Request.{Request as Item};
ghost use Rattle.gi_wire.specs.declared.reader.RequestKind.TheVariants as asked;
ghost use Rattle.gi_call.specs.Called.{Called, CanSend};
ghost use Rattle.gi_call.specs.MidCall.{AnswersItem, Calling, Closes, Exchanging, Misses, Tells, Typed};

use crate::asking::Asking;
use crate::end::CallEnd;
use crate::server::{MOST_BYTES, PIECE, ask};
use gi_model::{Call, Refusal, Reply};
use gi_outside::{Got, Link, Sent};
use gi_wire::{NextRequest, Reader, Request, RequestKind, write_reply};
use std::alloc::Global;

/// Serves a user by a server. Each item of the user's input, which is a line with all that is
/// joined to it or a load with the bytes behind its line, is sent as a call, and one line is read
/// from the server; an item that isn't in the grammar, is too long or is cut by the end isn't sent,
/// and is refused under its number. An answer is printed where the call can have it: a refusal then
/// names the item's line in place of the call's number. A model is printed only if it is true to
/// what is kept by the answers before. Each call is sent when the one before was answered. It ends
/// as `CallEnd` says, and then the links stand where it left them. Memory is asked for only once
/// the user has given bytes.
pub fn call_one<L: Link, M: Link>(alloc: Global, server: &mut L, user: &mut M) -> CallEnd
    ensures { Called (L.state server.old) (L.state server.new) (M.state user.old)
        (M.state user.new) result }
{
    let mut asking = Asking::new(alloc);
    let mut reader = Reader::new(alloc);
    let mut taken = 0u64;
    'session: while taken < MOST_BYTES {
        match read_more(user, &mut reader, &mut taken) {
            Some(end) => return end,
            None => {}
        }
        match answer_items(&mut asking, server, user, &mut reader) {
            Some(end) => return end,
            None => {}
        }
    }
    CallEnd::TooMuch
}

// Reads a piece from the user.
fn read_more<M: Link>(user: &mut M, reader: &mut Reader, taken: &mut u64) -> Option<CallEnd>
    requires room { taken.old < 2 ^ 62 }
    requires whole { ahead reader.old false [] ≡ [] }
    requires open { reader.old.lines.ended ≡ false }
    ensures ended { IfNone result ((M.state user.new).ended ≡ reader.new.lines.ended) }
    ensures most { IfNone result (taken.new ≤ taken.old + 4096) }
    ensures count { IfNone result
        (last_line reader.new + taken.old ≤ last_line reader.old + taken.new) }
    ensures grows { IfNone result (reader.new.lines.ended ≡ false → taken.old < taken.new) }
    ensures typed { (start : World) (done : List Item) (printed : List ℕ)
        → Typed start (M.state user.old) reader.old taken.old done printed
        → MatchOption result (Typed start (M.state user.new) reader.new taken.new done printed)
        (λ end. Misses end start (M.state user.new) done printed) }
{
    let mut buffer = [0u8; PIECE];
    match user.read(&mut buffer) {
        Got::Failed => Some(CallEnd::ReadFault),
        Got::End => {
            reader.end();
            None
        }
        Got::Bytes(n) => {
            *taken += n as u64;
            match reader.feed(&buffer[..n]) {
                Ok(()) => None,
                Err(_) => Some(CallEnd::NoMemory),
            }
        }
    }
}

// Answers every item that is whole, or is the last one.
fn answer_items<L: Link, M: Link>(
    asking: &mut Asking,
    server: &mut L,
    user: &mut M,
    reader: &mut Reader,
) -> Option<CallEnd>
    requires lines { last_line reader.old < 2 ^ 63 }
    requires few { asking.old.sent + length asking.old.lines.left ≤ asking.old.taken }
    requires most { asking.old.taken ≤ 2 ^ 62 + 4096 }
    ensures none { IfNone result
        ((ahead reader.new false [] ≡ []) × (reader.new.lines.ended ≡ false)) }
    ensures ended { IfNone result
        (((M.state user.new).ended ≡ (M.state user.old).ended)
        × (reader.new.lines.ended ≡ reader.old.lines.ended)) }
    ensures count { IfNone result (last_line reader.new ≤ last_line reader.old) }
    ensures few { IfNone result
        (asking.new.sent + length asking.new.lines.left ≤ asking.new.taken) }
    ensures most { IfNone result (asking.new.taken ≤ 2 ^ 62 + 4096) }
    ensures calling { (server0 user0 : World) (taken : ℕ)
        → (M.state user.old).ended ≡ reader.old.lines.ended
        → (0 < taken) ⊎ ((M.state user.old).ended ≡ true)
        → Calling server0 (L.state server.old) user0 (M.state user.old) asking.old reader.old taken
        → MatchOption result (Calling server0 (L.state server.new) user0 (M.state user.new)
        asking.new reader.new taken)
        (λ end. Called server0 (L.state server.new) user0 (M.state user.new) end) }
{
    'items: loop {
        match reader.next_item() {
            NextRequest::Request(item) => match answer(asking, server, user, item) {
                Some(end) => return Some(end),
                None => {}
            },
            NextRequest::More => return None,
            NextRequest::Done => return Some(CallEnd::Done),
            NextRequest::NoMemory => return Some(CallEnd::NoMemory),
        }
    }
}

// Answers one item.
fn answer<L: Link, M: Link>(
    asking: &mut Asking,
    server: &mut L,
    user: &mut M,
    item: Request,
) -> Option<CallEnd>
    requires can { CanSend item.asked }
    requires few { asking.old.sent + length asking.old.lines.left ≤ asking.old.taken }
    requires most { asking.old.taken ≤ 2 ^ 62 + 4096 }
    ensures few { IfNone result
        (asking.new.sent + length asking.new.lines.left ≤ asking.new.taken) }
    ensures most { IfNone result (asking.new.taken ≤ 2 ^ 62 + 4096) }
    ensures ended { IfNone result ((M.state user.new).ended ≡ (M.state user.old).ended) }
    ensures item { (start : World) (es : List Exchange)
        → Exchanging start (L.state server.old) asking.old es
        → AnswersItem result item start (L.state server.new) asking.new es (M.state user.old)
        (M.state user.new) }
{
    let Request { line, asked } = item;
    match asked {
        RequestKind::Call(call) => answer_call(asking, server, user, line, call),
        RequestKind::Syntax => tell(user, line, &Reply::Refused(Refusal::Syntax)),
        RequestKind::Long => tell(user, line, &Reply::Refused(Refusal::Long)),
    }
}

// Sends the call that an item asks for, and answers its line.
fn answer_call<L: Link, M: Link>(
    asking: &mut Asking,
    server: &mut L,
    user: &mut M,
    line: u64,
    call: Call,
) -> Option<CallEnd>
    requires can { has_line call ≡ true }
    requires few { asking.old.sent + length asking.old.lines.left ≤ asking.old.taken }
    requires most { asking.old.taken ≤ 2 ^ 62 + 4096 }
    ensures few { IfNone result
        (asking.new.sent + length asking.new.lines.left ≤ asking.new.taken) }
    ensures most { IfNone result (asking.new.taken ≤ 2 ^ 62 + 4096) }
    ensures ended { IfNone result ((M.state user.new).ended ≡ (M.state user.old).ended) }
    ensures item { (start : World) (es : List Exchange)
        → Exchanging start (L.state server.old) asking.old es
        → AnswersItem result (record { line = line; asked = asked.Call call }) start
        (L.state server.new) asking.new es (M.state user.old) (M.state user.new) }
{
    match ask(asking, call, server) {
        Ok(reply) => tell(user, line, &reply),
        Err(end) => Some(end),
    }
}

// Prints the answer to a line.
fn tell<M: Link>(user: &mut M, line: u64, reply: &Reply) -> Option<CallEnd>
    requires { is_answer reply.now ≡ true }
    ensures { Tells result line reply.now (M.state user.old) (M.state user.new) }
{
    match write_reply(line, reply, user) {
        Sent::Failed => Some(CallEnd::WriteFault),
        Sent::Done => ending_of(reply),
    }
}

// How an answer ends the client, if it does.
fn ending_of(reply: &Reply) -> Option<CallEnd>
    ensures { Closes result reply.now }
{
    match reply {
        Reply::Bye => Some(CallEnd::Done),
        _ => None,
    }
}
