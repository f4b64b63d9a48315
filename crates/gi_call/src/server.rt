// Calls to a server.
ghost use Rattle.std.specs.Prelude.{◌≡◌, ◌++◌, ◌+◌, ◌^◌, ◌<◌, ◌≤◌, ◌↔◌, ℕ, List, [], false, true, length, take, IfNone, IfOk, IsTrue, MatchOption, MatchResult, OnOk};
ghost use Rattle.gi_text.specs.Given.{IsLine};
ghost use Rattle.gi_outside.specs.World.{World};
ghost use Rattle.gi_kept.specs.Exchanges.{Exchange, IsTrueReply};
ghost use Rattle.gi_kept.specs.Kept.{kept_after, nothing_kept};
ghost use Rattle.gi_wire.specs.CallText.{has_line};
ghost use Rattle.gi_wire.specs.Text.{words_text};
ghost use Rattle.gi_call.specs.Exchanged.{CanHave};
ghost use Rattle.gi_call.specs.MidCall.{Answered, Awaiting, Exchanging, Rejects, Spoken, TellsAnswer, Unheard, is_named, to_read};

use crate::answer_lines::AnswerLines;
use crate::asking::Asking;
use crate::end::CallEnd;
use crate::front::Front;
use gi_kept::{Kept, may_answer};
use gi_model::{Call, Reply};
use gi_outside::{Got, Link, Sent};
use gi_wire::{ReplyRead, answers_differ, read_reply, write_call};
use std::alloc::{AllocError, Global};

// The most bytes that are taken from a link, but for its last read.
pub const MOST_BYTES: u64 = 1 << 62;

// The most bytes that one read asks for.
pub const PIECE: usize = 4096;

impl Asking {
    // Nothing was sent yet.
    pub fn new(alloc: Global) -> Asking
        ensures lines { (result.lines.left ≡ []) × (result.lines.ended ≡ false) }
        ensures counts { (result.taken ≡ 0) × (result.sent ≡ 0) }
        ensures kept { result.kept ≡ nothing_kept }
    {
        Asking {
            alloc,
            lines: AnswerLines::new(alloc),
            taken: 0,
            sent: 0,
            kept: Kept::new(alloc),
        }
    }
}

// Sends a call, and takes the answer to it.
pub fn ask<L: Link>(asking: &mut Asking, call: Call, server: &mut L) -> Result<Reply, CallEnd>
    requires line { has_line call ≡ true }
    requires few { asking.old.sent + length asking.old.lines.left ≤ asking.old.taken }
    requires most { asking.old.taken ≤ 2 ^ 62 + 4096 }
    ensures answered { (start : World) (es : List Exchange)
        → Exchanging start (L.state server.old) asking.old es
        → Answered result call start (L.state server.new) asking.new es }
    ensures can { IfOk result (λ reply. CanHave call reply) }
    ensures few { OnOk result
        (asking.new.sent + length asking.new.lines.left ≤ asking.new.taken) }
    ensures most { OnOk result (asking.new.taken ≤ 2 ^ 62 + 4096) }
{
    match write_call(&call, server) {
        Sent::Failed => Err(CallEnd::WriteFault),
        Sent::Done => take_answer(asking, call, server),
    }
}

// Takes the answer to a call that was sent.
fn take_answer<L: Link>(asking: &mut Asking, call: Call, server: &mut L) -> Result<Reply, CallEnd>
    requires few { asking.old.sent + length asking.old.lines.left ≤ asking.old.taken }
    requires most { asking.old.taken ≤ 2 ^ 62 + 4096 }
    ensures answered { (start : World) (es : List Exchange)
        → Awaiting start (L.state server.old) asking.old call es
        → Answered result call start (L.state server.new) asking.new es }
    ensures can { IfOk result (λ reply. CanHave call reply) }
    ensures few { OnOk result
        (asking.new.sent + length asking.new.lines.left ≤ asking.new.taken) }
    ensures most { OnOk result (asking.new.taken ≤ 2 ^ 62 + 4096) }
{
    let number = asking.sent + 1;
    match await_line(&mut asking.lines, &mut asking.taken, server, number) {
        Ok(n) => judge(asking, call, n, number),
        Err(end) => Err(end),
    }
}

// Takes the line of `n` bytes in front as the answer to the call of this number.
fn judge(asking: &mut Asking, call: Call, n: u32, number: u64) -> Result<Reply, CallEnd>
    requires line { IsLine n asking.old.lines }
    requires number { number ≡ asking.old.sent + 1 }
    requires few { asking.old.sent + length asking.old.lines.left ≤ asking.old.taken }
    requires most { asking.old.taken ≤ 2 ^ 62 + 4096 }
    ensures answered { (start now : World) (es : List Exchange)
        → Awaiting start now asking.old call es → Answered result call start now asking.new es }
    ensures can { IfOk result (λ reply. CanHave call reply) }
    ensures few { OnOk result
        (asking.new.sent + length asking.new.lines.left ≤ asking.new.taken) }
    ensures most { OnOk result (asking.new.taken ≤ 2 ^ 62 + 4096) }
{
    match read_answer(asking.alloc, asking.lines.front(n), &call, number) {
        Ok(reply) => accept(asking, call, reply, n, number),
        Err(end) => Err(end),
    }
}

// Takes an answer that the line in front tells and the call can have, unless it is a model that
// isn't true.
fn accept(
    asking: &mut Asking,
    call: Call,
    reply: Reply,
    n: u32,
    number: u64,
) -> Result<Reply, CallEnd>
    requires line { IsLine n asking.old.lines }
    requires number { number ≡ asking.old.sent + 1 }
    requires can { CanHave call reply }
    requires text { words_text number reply ≡ take n asking.old.lines.left }
    requires few { asking.old.sent + length asking.old.lines.left ≤ asking.old.taken }
    requires most { asking.old.taken ≤ 2 ^ 62 + 4096 }
    ensures answered { (start now : World) (es : List Exchange)
        → Awaiting start now asking.old call es → Answered result call start now asking.new es }
    ensures can { IfOk result (λ told. CanHave call told) }
    ensures few { OnOk result
        (asking.new.sent + length asking.new.lines.left ≤ asking.new.taken) }
    ensures most { OnOk result (asking.new.taken ≤ 2 ^ 62 + 4096) }
{
    match keep(&mut asking.kept, call, &reply, number) {
        Ok(()) => {
            asking.lines.pass(n);
            asking.sent = number;
            Ok(reply)
        }
        Err(end) => Err(end),
    }
}

// Reads until a whole line stands in front, and tells its length.
fn await_line<L: Link>(
    lines: &mut AnswerLines,
    taken: &mut u64,
    server: &mut L,
    number: u64,
) -> Result<u32, CallEnd>
    requires { taken.old ≤ 2 ^ 62 + 4096 }
    ensures line { IfOk result (λ n. IsLine n lines.new) }
    ensures most { taken.new ≤ 2 ^ 62 + 4096 }
    ensures few { OnOk result ((sent : ℕ) → sent + length lines.old.left ≤ taken.old
        → sent + length lines.new.left ≤ taken.new) }
    ensures spoken { (start : World) (es : List Exchange) (sent : List ℕ)
        → Spoken start (L.state server.old) es sent lines.old taken.old
        → MatchResult result (λ n. Spoken start (L.state server.new) es sent lines.new taken.new)
        (λ end. Unheard end number start (L.state server.new) es sent) }
{
    'pieces: loop {
        match lines.look() {
            Front::Line(n) => return Ok(n),
            Front::Long => return Err(CallEnd::BadReply(number)),
            Front::Done => return Err(CallEnd::Early),
            Front::More => match read_piece(lines, taken, server) {
                Some(end) => return Err(end),
                None => {}
            },
        }
    }
}

// Reads a piece.
fn read_piece<L: Link>(lines: &mut AnswerLines, taken: &mut u64, server: &mut L) -> Option<CallEnd>
    requires most { taken.old ≤ 2 ^ 62 + 4096 }
    requires open { lines.old.ended ≡ false }
    ensures most { taken.new ≤ 2 ^ 62 + 4096 }
    ensures few { IfNone result ((sent : ℕ) → sent + length lines.old.left ≤ taken.old
        → sent + length lines.new.left ≤ taken.new) }
    ensures grows { IfNone result
        (to_read lines.new.ended taken.new < to_read lines.old.ended taken.old) }
    ensures spoken { (number : ℕ) (start : World) (es : List Exchange) (sent : List ℕ)
        → Spoken start (L.state server.old) es sent lines.old taken.old
        → MatchOption result (Spoken start (L.state server.new) es sent lines.new taken.new)
        (λ end. Unheard end number start (L.state server.new) es sent) }
{
    if *taken >= MOST_BYTES {
        return Some(CallEnd::TooMuch);
    }
    let mut buffer = [0u8; PIECE];
    match server.read(&mut buffer) {
        Got::Failed => Some(CallEnd::ReadFault),
        Got::End => {
            lines.end();
            None
        }
        Got::Bytes(n) => {
            *taken += n as u64;
            match lines.feed(&buffer[..n]) {
                Ok(()) => None,
                Err(_) => Some(CallEnd::NoMemory),
            }
        }
    }
}

// The answer that a line tells to the call of this number.
fn read_answer(alloc: Global, line: &[u8], call: &Call, number: u64) -> Result<Reply, CallEnd>
    ensures { TellsAnswer result call.now number line.now }
{
    answers_differ();
    match read_reply(alloc, line) {
        ReplyRead::Told { line: named, reply } => {
            if !may_answer(call, &reply) {
                return Err(CallEnd::BadReply(number));
            }
            if !is_named(&reply, named, number) {
                return Err(CallEnd::BadReply(number));
            }
            Ok(reply)
        }
        ReplyRead::Bad => Err(CallEnd::BadReply(number)),
        ReplyRead::NoMemory => Err(CallEnd::NoMemory),
    }
}

// Whether an answer that names this line names the call of this number, if it names any.
fn is_named(reply: &Reply, named: u64, number: u64) -> bool
    ensures { result ≡ is_named reply.now named number }
{
    match reply {
        Reply::Refused(_) => named == number,
        _ => true,
    }
}

// Keeps what a call and its answer change. A model that isn't true ends the client.
fn keep(kept: &mut Kept, call: Call, reply: &Reply, number: u64) -> Result<(), CallEnd>
    ensures { MatchResult result
        (λ _. IsTrueReply kept.old reply.now × (kept.new ≡ kept_after kept.old call reply.now))
        (λ end. Rejects end reply.now number kept.old) }
{
    match believes(kept, reply) {
        Ok(true) => match kept.take(call, reply) {
            Ok(()) => Ok(()),
            Err(_) => Err(CallEnd::NoMemory),
        },
        Ok(false) => Err(CallEnd::FalseModel(number)),
        Err(_) => Err(CallEnd::NoMemory),
    }
}

// Whether an answer is no model, or one that is true to what is kept.
fn believes(kept: &Kept, reply: &Reply) -> Result<bool, AllocError>
    ensures { IfOk result (λ told. IsTrue told ↔ IsTrueReply kept.now reply.now) }
{
    match reply {
        Reply::Model(literals) => kept.is_true(literals.as_slice()),
        _ => Ok(true),
    }
}
