// The lines that answer.
ghost use Rattle.std.specs.Prelude.{◌≡◌, ◌++◌, ℕ, List, [], true, decimal};
ghost use Rattle.gi_outside.specs.Outbox.{Stands};
ghost use Rattle.gi_outside.specs.Sent.{Sends};
ghost use Rattle.gi_outside.specs.World.{World};
ghost use Rattle.gi_wire.specs.Literals.{list_text};
ghost use Rattle.gi_wire.specs.Text.{code_text, details_text, gate_text, is_answer, status_text, text, words_text};

use crate::literals::put_literals;
use gi_dimacs::CnfCode;
use gi_lit::Lits;
use gi_model::{PayloadCode, Refusal, Reply, Status, Why};
use gi_outside::{Link, Outbox, Sent};

/// Writes the line that answers the line of this number. The text is gathered in a buffer of 4,096
/// bytes, which is written when it is full and at the end; this takes no memory. After `Failed` a
/// front of the text was written that lacks its last byte, and the link's count of failed writes
/// rose.
pub fn write_reply<L: Link>(line: u64, reply: &Reply, link: &mut L) -> Sent
    requires { is_answer reply.now ≡ true }
    ensures { Sends result (L.state link.old) (L.state link.new) (text line reply.now) }
{
    let mut outbox = Outbox::new();
    put_answer(&mut outbox, line, reply, link);
    outbox.finish(link)
}

// Puts the line into an empty outbox.
#[tactic(auto, unfolding(crate::specs::Text::text))]
fn put_answer<L: Link>(outbox: &mut Outbox, line: u64, reply: &Reply, link: &mut L)
    ensures { (start : World) → Stands start (L.state link.old) outbox.old []
        → Stands start (L.state link.new) outbox.new (text line reply.now) }
{
    put_reply(outbox, line, reply, link);
    outbox.put(b"\n", link);
}

#[tactic(auto, unfolding(crate::specs::Text::words_text))]
fn put_reply<L: Link>(outbox: &mut Outbox, line: u64, reply: &Reply, link: &mut L)
    ensures { (start : World) → Stands start (L.state link.old) outbox.old []
        → Stands start (L.state link.new) outbox.new (words_text line reply.now) }
{
    match reply {
        Reply::Done => outbox.put(b"ok", link),
        Reply::Vars(n) => put_numbered(outbox, b"vars ", u64::from(*n), link),
        Reply::Guard(guard) => put_numbered(outbox, b"guard ", u64::from(guard.index()), link),
        Reply::Implied(literals) => put_listed(outbox, b"implied ", literals, link),
        Reply::Failed(literals) => put_listed(outbox, b"failed ", literals, link),
        Reply::Reasons(literals) => put_listed(outbox, b"reasons ", literals, link),
        Reply::Started(serial) => put_numbered(outbox, b"started ", *serial, link),
        Reply::Status { serial, status } => put_status(outbox, *serial, *status, link),
        Reply::Unsat { serial, failed } => {
            put_numbered(outbox, b"unsat ", *serial, link);
            put_listed(outbox, b" ", failed, link);
        }
        Reply::Model(literals) => put_listed(outbox, b"model ", literals, link),
        Reply::Known(n) => put_numbered(outbox, b"known ", *n, link),
        Reply::Clause(literals) => put_listed(outbox, b"clause ", literals, link),
        Reply::LoadedCnf { vars, clauses } => {
            put_numbered(outbox, b"loaded cnf ", u64::from(*vars), link);
            put_numbered(outbox, b" ", u64::from(*clauses), link);
        }
        Reply::Bye => outbox.put(b"bye", link),
        Reply::Refused(refusal) => {
            put_numbered(outbox, b"refused ", line, link);
            put_numbered(outbox, b" ", u64::from(refusal.number()), link);
            put_details(outbox, refusal, link);
        }
        Reply::NoMemory => outbox.put(b"nomem", link),
        Reply::Worked { .. } | Reply::Idle | Reply::Spent => {}
    }
}

// Puts what a refusal tells besides its number.
#[tactic(auto, unfolding(crate::specs::Text::details_text))]
fn put_details<L: Link>(outbox: &mut Outbox, refusal: &Refusal, link: &mut L)
    ensures { (start : World) (before : List ℕ) → Stands start (L.state link.old) outbox.old before
        → Stands start (L.state link.new) outbox.new (before ++ details_text refusal.now) }
{
    if let Refusal::Payload { line, gate, code } = refusal {
        put_numbered(outbox, b" ", *line, link);
        outbox.put(b" ", link);
        outbox.put(code_word(*code), link);
        put_gate(outbox, *gate, link);
    }
}

// Puts a gate that isn't 0.
fn put_gate<L: Link>(outbox: &mut Outbox, gate: u32, link: &mut L)
    ensures { (start : World) (before : List ℕ) → Stands start (L.state link.old) outbox.old before
        → Stands start (L.state link.new) outbox.new (before ++ gate_text gate) }
{
    if gate != 0 {
        put_numbered(outbox, b" ", u64::from(gate), link);
    }
}

// The word for what is wrong with a payload.
#[tactic(auto, unfolding(crate::specs::Text::code_text))]
fn code_word(code: PayloadCode) -> &'static [u8]
    ensures { result.now ≡ code_text code }
{
    match code {
        PayloadCode::Cnf(CnfCode::Header) => b"header",
        PayloadCode::Cnf(CnfCode::Word) => b"word",
        PayloadCode::Cnf(CnfCode::Number) => b"number",
        PayloadCode::Cnf(CnfCode::Limit) => b"limit",
        PayloadCode::Cnf(CnfCode::Unterminated) => b"unterminated",
    }
}

#[tactic(auto, unfolding(crate::specs::Text::status_text))]
fn put_status<L: Link>(outbox: &mut Outbox, serial: u64, status: Status, link: &mut L)
    ensures { (start : World) → Stands start (L.state link.old) outbox.old []
        → Stands start (L.state link.new) outbox.new (status_text serial status) }
{
    match status {
        Status::Running(spent) => {
            put_numbered(outbox, b"running ", serial, link);
            put_numbered(outbox, b" ", u64::from(spent), link);
        }
        Status::Paused(spent) => {
            put_numbered(outbox, b"paused ", serial, link);
            put_numbered(outbox, b" ", u64::from(spent), link);
        }
        Status::Sat => put_numbered(outbox, b"sat ", serial, link),
        Status::Unsat => put_numbered(outbox, b"unsat ", serial, link),
        Status::Unknown(Why::Budget) => {
            put_numbered(outbox, b"unknown ", serial, link);
            outbox.put(b" budget", link);
        }
        Status::Unknown(Why::Stopped) => {
            put_numbered(outbox, b"unknown ", serial, link);
            outbox.put(b" stopped", link);
        }
    }
}

// Puts a word, and a number.
pub(crate) fn put_numbered<L: Link>(outbox: &mut Outbox, word: &[u8], number: u64, link: &mut L)
    ensures { (start : World) (before : List ℕ) → Stands start (L.state link.old) outbox.old before
        → Stands start (L.state link.new) outbox.new (before ++ (word.now ++ decimal number)) }
{
    outbox.put(word, link);
    outbox.put_number(number, link);
}

// Puts a word, and a list of literals.
fn put_listed<L: Link>(outbox: &mut Outbox, word: &[u8], literals: &Lits, link: &mut L)
    ensures { (start : World) (before : List ℕ) → Stands start (L.state link.old) outbox.old before
        → Stands start (L.state link.new) outbox.new
        (before ++ (word.now ++ list_text literals.now)) }
{
    outbox.put(word, link);
    put_literals(outbox, literals.as_slice(), link);
}
