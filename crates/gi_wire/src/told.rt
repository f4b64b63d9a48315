// Answers, read from lines.
ghost use Rattle.std.specs.Prelude.{◌≡◌, ◌≤◌, ◌∷◌, ℕ, List, [], pos, Some, true, IfOk, IfSome, OnErr};
ghost use Rattle.std.specs.Fmt.{signed_decimal};
ghost use Rattle.gi_lit.specs.Literals.{number_of};
ghost use Rattle.gi_wire.specs.Answers.{code_of, failed_by, literals_of, loaded_of, natural, natural_32, natural_64, payload_by, payload_of, plain_refusal, refusal_of, refused_of, reply_alone, reply_of, reply_of_two, reply_with, short_reply, spelled, tells_list, told_of, unsat_of, why_of};
ghost use Rattle.gi_wire.specs.Fields.{fields_of};
ghost use Rattle.gi_wire.specs.Grammar.{literal_at, literal_in, within};
ghost use Rattle.gi_wire.specs.ReplyRead.{ReadsReply};

use crate::call::read_literal;
use crate::fields::Fields;
use gi_dimacs::CnfCode;
use gi_lit::{Lit, Lits, MAX_VAR, Var};
use gi_model::{PayloadCode, Refusal, Reply, Status, Why};
use gi_text::{Digits, read_digits};
use std::alloc::{AllocError, Global};

/// What a line tells.
#[derive(Drop)]
pub enum ReplyRead {
    /// This answer, to the line of this number, which is 0 but for a refusal.
    Told { line: u64, reply: Reply },
    /// The line is no answer.
    Bad,
    /// There was no memory for the answer's list of literals.
    NoMemory,
}

/// The answer that a line tells, without its LF. `Bad` comes exactly where the line is the text of
/// no answer (with single spaces, and numbers without leading zeros), but for want of memory, which
/// only a line takes whose first word is
/// `implied`, `failed`, `reasons`, `model`, `clause` or `unsat`.
pub fn read_reply(alloc: Global, line: &[u8]) -> ReplyRead
    ensures { ReadsReply result line.now }
{
    match read_fields(alloc, Fields::new(line)) {
        Ok(told) => tell(told),
        Err(_) => ReplyRead::NoMemory,
    }
}

// What a line tells, by what its fields tell.
fn tell(told: Option<(u64, Reply)>) -> ReplyRead
    ensures { (bytes : List ℕ) → told ≡ told_of (fields_of bytes) → ReadsReply result bytes }
{
    match told {
        Some((line, reply)) => ReplyRead::Told { line, reply },
        None => ReplyRead::Bad,
    }
}

// The answer that these fields tell, and the line that it names.
#[tactic(auto, unfolding(crate::specs::Answers::told_of))]
fn read_fields(alloc: Global, mut fields: Fields) -> Result<Option<(u64, Reply)>, AllocError>
    ensures told { IfOk result (λ told. told ≡ told_of fields.entry) }
    ensures list { OnErr result (tells_list fields.entry ≡ true) }
{
    match fields.take() {
        None => Ok(None),
        Some(name) => {
            if name == b"refused".as_slice() {
                return Ok(read_refused(fields));
            }
            match read_named(alloc, name, fields)? {
                Some(reply) => Ok(Some((0, reply))),
                None => Ok(None),
            }
        }
    }
}

// The answer of this name with these fields behind it, but a refusal.
#[tactic(auto, unfolding(crate::specs::Answers::reply_of, crate::specs::Answers::tells_list))]
fn read_named(alloc: Global, name: &[u8], fields: Fields) -> Result<Option<Reply>, AllocError>
    ensures reply { IfOk result (λ reply. reply ≡ reply_of name.now fields.entry) }
    ensures list { OnErr result (tells_list (name.now ∷ fields.entry) ≡ true) }
{
    if name == b"implied".as_slice() {
        return Ok(read_literals(alloc, fields)?.map(Reply::Implied));
    }
    if name == b"failed".as_slice() {
        return Ok(read_literals(alloc, fields)?.map(Reply::Failed));
    }
    if name == b"reasons".as_slice() {
        return Ok(read_literals(alloc, fields)?.map(Reply::Reasons));
    }
    if name == b"model".as_slice() {
        return Ok(read_literals(alloc, fields)?.map(Reply::Model));
    }
    if name == b"clause".as_slice() {
        return Ok(read_literals(alloc, fields)?.map(Reply::Clause));
    }
    if name == b"unsat".as_slice() {
        return read_unsat(alloc, fields);
    }
    if name == b"loaded".as_slice() {
        return Ok(read_loaded(fields));
    }
    Ok(read_short(name, fields))
}

// Literals, and then a 0 as the last field.
#[tactic(auto, unfolding(crate::specs::Answers::literals_of))]
fn read_literals(alloc: Global, mut fields: Fields) -> Result<Option<Lits>, AllocError>
    ensures { IfOk result (λ list. list ≡ literals_of fields.entry) }
{
    let mut list = Lits::new(alloc);
    'fields: while let Some(field) = fields.take() {
        if field == b"0".as_slice() {
            return Ok(match fields.take() {
                None => Some(list),
                Some(_) => None,
            });
        }
        match read_spelled(field) {
            Some(literal) => list.push(literal)?,
            None => return Ok(None),
        }
    }
    Ok(None)
}

// A literal whose number has its shortest spelling.
fn read_spelled(field: &[u8]) -> Option<Lit>
    ensures { result ≡ literal_in (spelled field.now) }
{
    match read_literal(field) {
        Some(literal) => keep_spelled(literal, field),
        None => None,
    }
}

// This literal, if the field is the shortest spelling of its number.
fn keep_spelled(literal: Lit, field: &[u8]) -> Option<Lit>
    requires { literal_at field.now ≡ Some literal }
    ensures { result ≡ literal_in (spelled field.now) }
{
    if spelling(literal).as_slice() == field {
        return Some(literal);
    }
    None
}

fn spelling(literal: Lit) -> Digits
    ensures { result ≡ signed_decimal (number_of literal) }
{
    Digits::of(i128::from(literal.to_dimacs()))
}

// A failed solve, with its failing assumptions or without.
fn read_unsat(alloc: Global, mut fields: Fields) -> Result<Option<Reply>, AllocError>
    ensures { IfOk result (λ reply. reply ≡ unsat_of fields.entry) }
{
    match fields.take() {
        None => Ok(None),
        Some(field) => match read_u64(field) {
            None => Ok(None),
            Some(serial) => read_failed(alloc, serial, fields),
        },
    }
}

// A failed solve of this serial.
fn read_failed(alloc: Global, serial: u64, fields: Fields) -> Result<Option<Reply>, AllocError>
    ensures { IfOk result (λ reply. reply ≡ failed_by (Some serial) fields.entry) }
{
    if fields.is_empty() {
        let status = Status::Unsat;
        return Ok(Some(Reply::Status { serial, status }));
    }
    match read_literals(alloc, fields)? {
        None => Ok(None),
        Some(failed) => Ok(Some(Reply::Unsat { serial, failed })),
    }
}

// What was loaded.
fn read_loaded(mut fields: Fields) -> Option<Reply>
    ensures { result ≡ loaded_of fields.entry }
{
    let kind = fields.take()?;
    let vars = fields.take()?;
    let clauses = fields.take()?;
    match fields.take() {
        None => read_counts(kind, vars, clauses),
        Some(_) => None,
    }
}

// How many variables and clauses a file of this kind has.
fn read_counts(kind: &[u8], vars: &[u8], clauses: &[u8]) -> Option<Reply>
    ensures { result ≡ loaded_of (kind.now ∷ vars.now ∷ clauses.now ∷ []) }
{
    if kind != b"cnf".as_slice() {
        return None;
    }
    let vars = read_u32(vars)?;
    let clauses = read_u32(clauses)?;
    Some(Reply::LoadedCnf { vars, clauses })
}

// An answer with at most two fields behind its name.
fn read_short(name: &[u8], mut fields: Fields) -> Option<Reply>
    ensures { result ≡ short_reply name.now fields.entry }
{
    match fields.take() {
        None => read_alone(name),
        Some(first) => match fields.take() {
            None => read_with(name, first),
            Some(second) => match fields.take() {
                None => read_two(name, first, second),
                Some(_) => None,
            },
        },
    }
}

// An answer that is its name alone.
#[tactic(auto, unfolding(crate::specs::Answers::reply_alone))]
fn read_alone(name: &[u8]) -> Option<Reply>
    ensures { result ≡ reply_alone name.now }
{
    if name == b"ok".as_slice() {
        return Some(Reply::Done);
    }
    if name == b"bye".as_slice() {
        return Some(Reply::Bye);
    }
    if name == b"nomem".as_slice() {
        return Some(Reply::NoMemory);
    }
    None
}

// An answer with one number.
#[tactic(auto, unfolding(crate::specs::Answers::reply_with))]
fn read_with(name: &[u8], field: &[u8]) -> Option<Reply>
    ensures { result ≡ reply_with name.now field.now }
{
    if name == b"vars".as_slice() {
        return Some(Reply::Vars(read_u32(field)?));
    }
    if name == b"guard".as_slice() {
        let guard = read_natural(field, 1, u64::from(MAX_VAR))?;
        return Some(Reply::Guard(Var::new(guard as u32)?));
    }
    if name == b"started".as_slice() {
        return Some(Reply::Started(read_u64(field)?));
    }
    if name == b"known".as_slice() {
        return Some(Reply::Known(read_u64(field)?));
    }
    if name == b"sat".as_slice() {
        let serial = read_u64(field)?;
        return Some(Reply::Status {
            serial,
            status: Status::Sat,
        });
    }
    None
}

// An answer with a serial and one more field.
#[tactic(auto, unfolding(crate::specs::Answers::reply_of_two))]
fn read_two(name: &[u8], serial: &[u8], field: &[u8]) -> Option<Reply>
    ensures { result ≡ reply_of_two name.now serial.now field.now }
{
    if name == b"running".as_slice() {
        let serial = read_u64(serial)?;
        let status = Status::Running(read_u32(field)?);
        return Some(Reply::Status { serial, status });
    }
    if name == b"paused".as_slice() {
        let serial = read_u64(serial)?;
        let status = Status::Paused(read_u32(field)?);
        return Some(Reply::Status { serial, status });
    }
    if name == b"unknown".as_slice() {
        let serial = read_u64(serial)?;
        let status = Status::Unknown(read_why(field)?);
        return Some(Reply::Status { serial, status });
    }
    None
}

fn read_why(field: &[u8]) -> Option<Why>
    ensures { result ≡ why_of field.now }
{
    if field == b"budget".as_slice() {
        return Some(Why::Budget);
    }
    if field == b"stopped".as_slice() {
        return Some(Why::Stopped);
    }
    None
}

// A refusal, and the line that it names.
fn read_refused(mut fields: Fields) -> Option<(u64, Reply)>
    ensures { result ≡ refused_of fields.entry }
{
    let line = fields.take()?;
    let number = fields.take()?;
    let line = read_u64(line)?;
    let refusal = read_refusal(number, fields)?;
    Some((line, Reply::Refused(refusal)))
}

// A refusal, by its number and what else it tells.
fn read_refusal(number: &[u8], mut fields: Fields) -> Option<Refusal>
    ensures { result ≡ refusal_of number.now fields.entry }
{
    match fields.take() {
        None => read_plain(read_natural(number, 1, 14)?),
        Some(line) => {
            let _payload = read_natural(number, 16, 16)?;
            read_payload(line, fields)
        }
    }
}

// The refusal of this number that tells nothing else.
#[tactic(auto, unfolding(crate::specs::Answers::plain_refusal))]
fn read_plain(number: u64) -> Option<Refusal>
    ensures { result ≡ plain_refusal number }
{
    match number {
        1 => Some(Refusal::Syntax),
        2 => Some(Refusal::Long),
        3 => Some(Refusal::Dead),
        4 => Some(Refusal::Busy),
        5 => Some(Refusal::Scoped),
        6 => Some(Refusal::Lit),
        7 => Some(Refusal::NotGuard),
        8 => Some(Refusal::Held),
        9 => Some(Refusal::Limit),
        10 => Some(Refusal::NoScope),
        11 => Some(Refusal::NotImplied),
        12 => Some(Refusal::NoSolve),
        13 => Some(Refusal::NoModel),
        14 => Some(Refusal::NoClause),
        _ => None,
    }
}

// What is wrong with a payload, and where.
fn read_payload(line: &[u8], mut fields: Fields) -> Option<Refusal>
    ensures { result ≡ payload_of line.now fields.entry }
{
    let code = fields.take()?;
    match fields.take() {
        None => read_fault(line, 0, code),
        Some(gate) => match fields.take() {
            None => {
                let gate = read_natural(gate, 1, u64::from(u32::MAX))?;
                read_fault(line, gate as u32, code)
            }
            Some(_) => None,
        },
    }
}

fn read_fault(line: &[u8], gate: u32, code: &[u8]) -> Option<Refusal>
    ensures { result ≡ payload_by (natural_64 line.now) (Some gate) (code_of code.now) }
{
    let line = read_u64(line)?;
    let code = read_code(code)?;
    Some(Refusal::Payload { line, gate, code })
}

// What is wrong, by its word.
#[tactic(auto, unfolding(crate::specs::Answers::code_of))]
fn read_code(field: &[u8]) -> Option<PayloadCode>
    ensures { result ≡ code_of field.now }
{
    if field == b"header".as_slice() {
        return Some(PayloadCode::Cnf(CnfCode::Header));
    }
    if field == b"word".as_slice() {
        return Some(PayloadCode::Cnf(CnfCode::Word));
    }
    if field == b"number".as_slice() {
        return Some(PayloadCode::Cnf(CnfCode::Number));
    }
    if field == b"limit".as_slice() {
        return Some(PayloadCode::Cnf(CnfCode::Limit));
    }
    if field == b"unterminated".as_slice() {
        return Some(PayloadCode::Cnf(CnfCode::Unterminated));
    }
    None
}

fn read_u32(field: &[u8]) -> Option<u32>
    ensures { result ≡ natural_32 field.now }
{
    let n = read_natural(field, 0, u64::from(u32::MAX))?;
    Some(n as u32)
}

fn read_u64(field: &[u8]) -> Option<u64>
    ensures { result ≡ natural_64 field.now }
{
    read_natural(field, 0, u64::MAX)
}

// A number within these bounds, with its shortest spelling.
fn read_natural(field: &[u8], least: u64, most: u64) -> Option<u64>
    ensures value { result ≡ natural least most field.now }
    ensures bounds { IfSome result (λ n. (least ≤ n) × (n ≤ most)) }
{
    match read_digits(field) {
        Some(n) => keep_within(n, least, most),
        None => None,
    }
}

// This number, if it is within these bounds.
fn keep_within(n: u64, least: u64, most: u64) -> Option<u64>
    ensures value { result ≡ within least most (Some (pos n)) }
    ensures bounds { IfSome result (λ n. (least ≤ n) × (n ≤ most)) }
{
    if n < least {
        return None;
    }
    if n > most {
        return None;
    }
    Some(n)
}
