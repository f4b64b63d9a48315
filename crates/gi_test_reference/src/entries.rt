use crate::transcript::{ENTRIES, FILES};
use gi_dimacs::CnfCode;
use gi_lit::{Assign, Clauses, Guards, Lit, Lits, Var, top_variable};
use gi_model::{Call, Cause, Now, PayloadCode, Refusal, Reply, Status, Verdict, Why};
use gi_reference::Plain;
use gi_text::Bytes;
use std::alloc::{AllocError, Global};
use std::test::Fail;

fn literal(word: &str) -> Option<Lit> {
    match word.parse::<i32>() {
        Ok(n) => Lit::from_dimacs(n),
        Err(_) => None,
    }
}

/// The literals that a text names, in DIMACS numbers.
fn lits(alloc: Global, text: &str) -> Result<Lits, AllocError> {
    let mut lits = Lits::new(alloc);
    for word in text.split_whitespace() {
        if let Some(l) = literal(word) {
            lits.push(l)?;
        }
    }
    Ok(lits)
}

/// The first literal that a text names.
fn first_lit(text: &str) -> Option<Lit> {
    for word in text.split_whitespace() {
        if let Some(l) = literal(word) {
            return Some(l);
        }
    }
    None
}

/// The guards that a text names.
fn guards(alloc: Global, text: &str) -> Result<Guards, AllocError> {
    let mut guards = Guards::new(alloc);
    for word in text.split_whitespace() {
        if let Some(l) = literal(word) {
            guards.push(l.var())?;
        }
    }
    Ok(guards)
}

/// The clauses of a text, one behind each colon.
fn clauses(alloc: Global, text: &str) -> Result<Clauses, AllocError> {
    let mut clauses = Clauses::new(alloc);
    for part in text.split(':').skip(1) {
        clauses.push(lits(alloc, part)?)?;
    }
    Ok(clauses)
}

/// The values that make the literals of a text true, each that of the next variable.
fn values(alloc: Global, text: &str) -> Result<Assign, AllocError> {
    let lits = lits(alloc, text)?;
    let mut values = Assign::falses(alloc, top_variable(lits.as_slice()))?;
    for l in lits.as_slice() {
        if l.var().index() <= values.len() {
            values.set(l.var(), !l.is_negative());
        }
    }
    Ok(values)
}

/// The first number that a text names, or 0.
fn number(text: &str) -> u32 {
    for word in text.split_whitespace() {
        if let Ok(n) = word.parse::<u32>() {
            return n;
        }
    }
    0
}

/// What stands before and behind a mark; nothing behind it where there is none.
fn parted<'a>(text: &'a str, mark: &str) -> (&'a str, &'a str) {
    match text.split_once(mark) {
        Some(parts) => parts,
        None => (text, ""),
    }
}

/// A call or a reply in words: all of it, its first word, and what stands before and behind the first colon.
#[derive(Clone, Copy)]
struct Said<'a> {
    text: &'a str,
    word: &'a str,
    head: &'a str,
    tail: &'a str,
}

fn read_said<'a>(text: &'a str) -> Said<'a> {
    let (head, tail) = parted(text, ":");
    Said {
        text,
        word: parted(head, " ").0,
        head,
        tail,
    }
}

fn call(alloc: Global, said: Said) -> Result<Option<Call>, AllocError> {
    match said.word {
        "add" => Ok(Some(Call::Add(lits(alloc, said.head)?))),
        "assume" => Ok(Some(Call::Assume(lits(alloc, said.head)?))),
        "under" => under(alloc, said),
        "load" => Ok(Some(Call::LoadCnf(file(alloc, number(said.head))?))),
        _ => Ok(numbered(said)),
    }
}

fn under(alloc: Global, said: Said) -> Result<Option<Call>, AllocError> {
    let guards = guards(alloc, said.head)?;
    Ok(Some(Call::Under(guards, lits(alloc, said.tail)?)))
}

fn file(alloc: Global, place: u32) -> Result<Bytes, AllocError> {
    match FILES.get(place as usize) {
        Some(bytes) => Bytes::of(alloc, bytes),
        None => Ok(Bytes::new(alloc)),
    }
}

/// The call that names a number, a guard or a literal.
fn numbered(said: Said) -> Option<Call> {
    let n = number(said.head);
    match said.word {
        "vars" => Some(Call::Vars(n)),
        "drop" => Some(Call::DropGuard(Var::new(n)?)),
        "reasons" => Some(Call::Reasons(first_lit(said.head)?)),
        "solve" => Some(Call::Solve(n)),
        "clause" => Some(Call::KnownClause(n)),
        "work" => Some(Call::Work(n as u64)),
        word => named(word),
    }
}

fn named(word: &str) -> Option<Call> {
    match word {
        "guard" => Some(Call::NewGuard),
        "test" => Some(Call::Test),
        "untest" => Some(Call::Untest),
        "pause" => Some(Call::Pause),
        "resume" => Some(Call::Resume),
        "stop" => Some(Call::Stop),
        "poll" => Some(Call::Poll),
        "wait" => Some(Call::Wait),
        "model" => Some(Call::Model),
        "known" => Some(Call::Known),
        "bye" => Some(Call::Bye),
        "shut" => Some(Call::Shut),
        _ => None,
    }
}

fn reply(alloc: Global, said: Said) -> Result<Option<Reply>, AllocError> {
    match said.word {
        "implied" => Ok(Some(Reply::Implied(lits(alloc, said.head)?))),
        "failed" => Ok(Some(Reply::Failed(lits(alloc, said.head)?))),
        "reasons" => Ok(Some(Reply::Reasons(lits(alloc, said.head)?))),
        "model" => Ok(Some(Reply::Model(lits(alloc, said.head)?))),
        "clause" => Ok(Some(Reply::Clause(lits(alloc, said.head)?))),
        "unsat" => Ok(Some(Reply::Unsat {
            serial: number(said.head) as u64,
            failed: lits(alloc, said.tail)?,
        })),
        _ => worked(alloc, said),
    }
}

/// The reply to a slice of work, or a reply without a list.
fn worked(alloc: Global, said: Said) -> Result<Option<Reply>, AllocError> {
    match left(alloc, said)? {
        Some(now) => Ok(Some(Reply::Worked {
            news: clauses(alloc, said.text)?,
            now,
        })),
        None => Ok(short(said)),
    }
}

/// How a slice leaves its solve.
fn left(alloc: Global, said: Said) -> Result<Option<Now>, AllocError> {
    let n = number(said.head);
    match said.word {
        "live" => Ok(Some(Now::Live)),
        "found" => Ok(Some(Now::Ended(Verdict::Sat(values(alloc, said.head)?)))),
        "fails" => Ok(Some(Now::Ended(Verdict::Unsat(lits(alloc, said.head)?)))),
        "halted" => Ok(Some(unknown(Cause::Stopped(n as u64)))),
        "exhausted" => Ok(Some(unknown(Cause::Budget(n)))),
        _ => Ok(None),
    }
}

fn unknown(cause: Cause) -> Now {
    Now::Ended(Verdict::Unknown(cause))
}

/// The replies without a list.
fn short(said: Said) -> Option<Reply> {
    let n = number(said.head);
    match said.word {
        "ok" => Some(Reply::Done),
        "vars" => Some(Reply::Vars(n)),
        "guard" => Some(Reply::Guard(Var::new(n)?)),
        "started" => Some(Reply::Started(n as u64)),
        "known" => Some(Reply::Known(n as u64)),
        "loaded" => Some(Reply::LoadedCnf {
            vars: n,
            clauses: number(said.tail),
        }),
        "bye" => Some(Reply::Bye),
        "idle" => Some(Reply::Idle),
        "nomem" => Some(Reply::NoMemory),
        _ => standing(said, n),
    }
}

/// A refusal, or how a solve stands.
fn standing(said: Said, n: u32) -> Option<Reply> {
    match refusal(said.word, n) {
        Some(refusal) => Some(Reply::Refused(refusal)),
        None => Some(Reply::Status {
            serial: n as u64,
            status: status(said.word, number(said.tail))?,
        }),
    }
}

fn status(word: &str, spent: u32) -> Option<Status> {
    match word {
        "running" => Some(Status::Running(spent)),
        "paused" => Some(Status::Paused(spent)),
        "sat" => Some(Status::Sat),
        "stopped" => Some(Status::Unknown(Why::Stopped)),
        "spent" => Some(Status::Unknown(Why::Budget)),
        _ => None,
    }
}

/// The refusal of a call, or that of a file with a fault in that line.
fn refusal(word: &str, n: u32) -> Option<Refusal> {
    let code = match word {
        "refused" => return refused(n),
        "bad_word" => CnfCode::Word,
        "bad_header" => CnfCode::Header,
        "bad_end" => CnfCode::Unterminated,
        _ => return None,
    };
    Some(Refusal::Payload {
        line: n as u64,
        gate: 0,
        code: PayloadCode::Cnf(code),
    })
}

/// The refusal of that number.
fn refused(n: u32) -> Option<Refusal> {
    match n {
        3 => Some(Refusal::Dead),
        4 => Some(Refusal::Busy),
        5 => Some(Refusal::Scoped),
        6 => Some(Refusal::Lit),
        7 => Some(Refusal::NotGuard),
        8 => Some(Refusal::Held),
        9 => Some(Refusal::Limit),
        10 => Some(Refusal::NoScope),
        11 => Some(Refusal::NotImplied),
        12 => Some(Refusal::NoSolve),
        13 => Some(Refusal::NoModel),
        14 => Some(Refusal::NoClause),
        _ => None,
    }
}

/// Whether the machine allows the entry, and follows it then; none where it can't be read.
fn takes(alloc: Global, plain: &mut Plain, entry: &str) -> Result<Option<bool>, AllocError> {
    let (asked, answered) = parted(entry, " = ");
    match call(alloc, read_said(asked))? {
        Some(call) => answers(alloc, plain, &call, answered),
        None => Ok(None),
    }
}

fn answers(
    alloc: Global,
    plain: &mut Plain,
    call: &Call,
    answered: &str,
) -> Result<Option<bool>, AllocError> {
    match reply(alloc, read_said(answered))? {
        Some(reply) => Ok(Some(plain.step(call, &reply)?)),
        None => Ok(None),
    }
}

/// Whether the machine says of an entry what its line does.
fn agrees(alloc: Global, plain: &mut Plain, line: &str) -> Result<bool, AllocError> {
    let (entry, allowed) = match line.strip_prefix("!") {
        Some(entry) => (entry, false),
        None => (line, true),
    };
    Ok(takes(alloc, plain, entry)? == Some(allowed))
}

/// The first line of a transcript at which a machine says otherwise.
fn stray(alloc: Global, transcript: &'static str) -> Result<Option<&'static str>, AllocError> {
    let mut plain = Plain::new(alloc);
    for line in transcript.lines() {
        if line.starts_with("#") {
            plain = Plain::new(alloc);
        } else if !agrees(alloc, &mut plain, line)? {
            return Ok(Some(line));
        }
    }
    Ok(None)
}

#[test]
fn entries(rt: HostRuntime) -> Result<(), Fail> {
    assert_eq!(rt; stray(rt.alloc(), ENTRIES)?, None);
    Ok(())
}
