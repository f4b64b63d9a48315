// Rows from outside, and each call once with ample memory.
ghost use Rattle.std.specs.Prelude.{◌≡◌, ◌^◌, ◌<◌, ◌≤◌, IsTrue, true};
ghost use Rattle.gi_wire.specs.Source.{last_line};
ghost use Rattle.gi_wire.specs.Text.{is_answer};

use gi_lit::{Lit, Lits};
use gi_model::{Call, Reply};
use gi_outside::{MemoryLink, Sent};
use gi_text::Bytes;
use gi_wire::{
    CallRead, Kind, NextRequest, Reader, ReplyRead, Request, RequestKind, read_call, read_reply,
    write_reply,
};
use std::alloc::Global;

// The literals 1 and -2.
fn one_and_not_two(alloc: Global) -> Option<Lits> {
    let mut literals = Lits::new(alloc);
    match literals.push(Lit::from_dimacs(1)?) {
        Ok(()) => {}
        Err(_) => return None,
    }
    match literals.push(Lit::from_dimacs(-2)?) {
        Ok(()) => Some(literals),
        Err(_) => None,
    }
}

fn reads_one_and_not_two(alloc: Global, line: &str) -> bool {
    match (read_call(alloc, line.as_bytes()), one_and_not_two(alloc)) {
        (CallRead::Call(Call::Add(clause)), Some(want)) => clause.as_slice() == want.as_slice(),
        _ => false,
    }
}

#[test]
fn a_clause_is_read_by_its_words(rt: HostRuntime) {
    assert!(rt; reads_one_and_not_two(rt.alloc(), " add\t1 -2 00\r"));
}

const CALLS: [&str; 28] = [
    "add 0",
    "add 1 -2 0",
    "assume 16777216 0",
    "under 3 1 0",
    "under 3 0",
    "under 3 4 0 1 0",
    "under 3 4 0",
    "under 3 0 00",
    "vars 0",
    "vars 16777216",
    "guard",
    "drop 3",
    "test",
    "untest",
    "reasons -3",
    "solve",
    "solve 1",
    "solve 4294967295",
    "pause",
    "resume",
    "stop",
    "poll",
    "wait",
    "model",
    "known",
    "clause 1",
    "bye",
    "  bye\r",
];

fn is_call(alloc: Global, line: &str) -> bool {
    matches!(read_call(alloc, line.as_bytes()), CallRead::Call(_))
}

#[test]
fn lines_of_the_grammar(rt: HostRuntime) {
    for line in CALLS {
        assert!(rt; is_call(rt.alloc(), line), "{line}");
    }
}

const LOADS: [(&str, u32); 4] = [
    ("load cnf 0", 0),
    ("load cnf 5", 5),
    (" load\tcnf 005\r", 5),
    ("load cnf 16777216", 16_777_216),
];

fn is_load(alloc: Global, line: &str, bytes: u32) -> bool {
    match read_call(alloc, line.as_bytes()) {
        CallRead::Load {
            kind: Kind::Cnf,
            len,
        } => len == bytes,
        _ => false,
    }
}

#[test]
fn loads_have_a_length(rt: HostRuntime) {
    for (line, bytes) in LOADS {
        assert!(rt; is_load(rt.alloc(), line, bytes), "{line}");
    }
}

const REFUSED: [&str; 33] = [
    "",
    " ",
    "add",
    "add 1",
    "add 1 x 0",
    "add 0 1 0",
    "add 16777217 0",
    "vars 16777217",
    "vars -1",
    "vars",
    "vars +1",
    "solve 0",
    "solve 4294967296",
    "solve 1 2",
    "clause 0",
    "reasons 0",
    "drop -3",
    "under 0",
    "under 0 1 0",
    "under 3 -4 0 1 0",
    "under 3 0 1",
    "under 3 0 1 0 0",
    "Bye",
    "shut",
    "load",
    "load cnf",
    "load cnf -1",
    "load cnf 16777217",
    "load cnf 5 5",
    "load CNF 5",
    "load aig 5",
    "frame",
    "bye bye",
];

fn is_refused(alloc: Global, line: &str) -> bool {
    matches!(read_call(alloc, line.as_bytes()), CallRead::Syntax)
}

#[test]
fn lines_outside_the_grammar(rt: HostRuntime) {
    for line in REFUSED {
        assert!(rt; is_refused(rt.alloc(), line), "{line}");
    }
}

// What is given next: a line and a word for what it asks for, or line 0.
type Told = (u64, &'static str);

fn word_for(asked: &RequestKind, loaded: &str) -> &'static str {
    match asked {
        RequestKind::Call(Call::LoadCnf(bytes)) if bytes.as_slice() == loaded.as_bytes() => "load",
        RequestKind::Call(Call::Bye) => "bye",
        RequestKind::Call(_) => "another call",
        RequestKind::Syntax => "syntax",
        RequestKind::Long => "long",
    }
}

// Whether an item is as wanted; `load` stands for a load of these bytes.
fn is_wanted(item: &Request, want: Told, loaded: &str) -> bool {
    item.line == want.0 && word_for(&item.asked, loaded) == want.1
}

// Whether this is given next, before the end.
fn gives(reader: &mut Reader, want: Told, loaded: &str) -> bool
    requires { last_line reader.old < 2 ^ 63 }
    ensures { IsTrue result → last_line reader.new ≤ last_line reader.old }
{
    match reader.next_item() {
        NextRequest::Request(item) => is_wanted(&item, want, loaded),
        NextRequest::More => want.1 == "more",
        NextRequest::Done => false,
        NextRequest::NoMemory => false,
    }
}

// Whether this is given next, or the end is told.
fn gives_at_last(reader: &mut Reader, want: Told, loaded: &str) -> bool
    requires { last_line reader.old < 2 ^ 63 }
{
    match reader.next_item() {
        NextRequest::Request(item) => is_wanted(&item, want, loaded),
        NextRequest::More => false,
        NextRequest::Done => want.1 == "done",
        NextRequest::NoMemory => false,
    }
}

// A front of an input, the rest, the bytes of its load, what is given after the front and twice at the end.
type Row = (&'static str, &'static str, &'static str, [Told; 3]);

const ROWS: [Row; 13] = [
    ("bye", "", "", [(0, "more"), (1, "bye"), (0, "done")]),
    (
        "load cnf 4\na\n",
        "b\nbye\n",
        "a\nb\n",
        [(0, "more"), (1, "load"), (2, "bye")],
    ),
    (
        "load cnf 3\nbye",
        "bye",
        "bye",
        [(1, "load"), (2, "bye"), (0, "done")],
    ),
    (
        "load cnf 0\nbye\n",
        "",
        "",
        [(1, "load"), (2, "bye"), (0, "done")],
    ),
    (
        "load cnf 0",
        "",
        "",
        [(0, "more"), (1, "load"), (0, "done")],
    ),
    (
        "load cnf 9\nbye\n",
        "bye",
        "",
        [(0, "more"), (1, "syntax"), (0, "done")],
    ),
    (
        "load cnf 1",
        "",
        "",
        [(0, "more"), (1, "syntax"), (0, "done")],
    ),
    (
        "load aig 4\nbye\n",
        "",
        "",
        [(1, "syntax"), (2, "bye"), (0, "done")],
    ),
    (
        "add 1 +\r\n+\n2 0\nbye\n",
        "",
        "",
        [(1, "another call"), (4, "bye"), (0, "done")],
    ),
    (
        "vars 1 +\nadd 1 +\nx 0\n",
        "poll\n",
        "",
        [(1, "syntax"), (2, "syntax"), (4, "another call")],
    ),
    (
        "add 1 +\n",
        "",
        "",
        [(0, "more"), (1, "syntax"), (0, "done")],
    ),
    (
        "under 1 + 2 0\nbye\n",
        "add +",
        "",
        [(1, "syntax"), (2, "bye"), (3, "syntax")],
    ),
    (
        "load cnf 6\nadd +\n",
        "bye\n",
        "add +\n",
        [(1, "load"), (2, "bye"), (0, "done")],
    ),
];

fn gives_all(alloc: Global, front: &str, back: &str, loaded: &str, want: [Told; 3]) -> bool {
    if front.len() > 100 || back.len() > 100 {
        return false;
    }
    let [first, second, third] = want;
    let mut reader = Reader::new(alloc);
    if reader.feed(front.as_bytes()).is_err() {
        return false;
    }
    if !gives(&mut reader, first, loaded) {
        return false;
    }
    if reader.feed(back.as_bytes()).is_err() {
        return false;
    }
    reader.end();
    if !gives(&mut reader, second, loaded) {
        return false;
    }
    gives_at_last(&mut reader, third, loaded)
}

#[test]
fn items_are_lines_and_loads(rt: HostRuntime) {
    for (front, back, loaded, want) in ROWS {
        assert!(rt; gives_all(rt.alloc(), front, back, loaded, want), "{front}");
    }
}

const ANSWERS: [&str; 32] = [
    "ok",
    "bye",
    "nomem",
    "vars 0",
    "vars 4294967295",
    "guard 1",
    "guard 16777216",
    "implied 0",
    "failed -1 2 0",
    "reasons 16777216 0",
    "model 1 -16777216 0",
    "clause 7 0",
    "started 18446744073709551615",
    "running 1 0",
    "paused 18446744073709551615 4294967295",
    "sat 1",
    "unsat 1",
    "unsat 1 0",
    "unsat 1 2 0",
    "unknown 1 budget",
    "unknown 1 stopped",
    "known 0",
    "loaded cnf 2 1",
    "refused 1 1",
    "refused 3 12",
    "refused 18446744073709551615 14",
    "refused 1 16 2 header",
    "refused 1 16 2 word",
    "refused 1 16 2 number",
    "refused 1 16 2 limit",
    "refused 1 16 18446744073709551615 unterminated",
    "refused 1 16 2 word 4294967295",
];

// Whether a reply is written as this line.
fn is_written(alloc: Global, line: u64, reply: &Reply, text: &str) -> bool
    requires { is_answer reply.now ≡ true }
{
    let (cuts, reads, writes) = (Vec::new(alloc), Vec::new(alloc), Vec::new(alloc));
    let mut link = MemoryLink::new(alloc, Bytes::new(alloc), cuts, reads, writes);
    let sent = write_reply(line, reply, &mut link);
    sent == Sent::Done && link.written().strip_suffix(b"\n") == Some(text.as_bytes())
}

// Whether a line is read as an answer, and that is written as the line.
#[tactic(auto, using(crate::proofs::Told::told_answers))]
fn is_answer_line(alloc: Global, line: &str) -> bool {
    match read_reply(alloc, line.as_bytes()) {
        ReplyRead::Told { line: at, reply } => is_written(alloc, at, &reply, line),
        _ => false,
    }
}

#[test]
fn lines_that_answer(rt: HostRuntime) {
    for line in ANSWERS {
        assert!(rt; is_answer_line(rt.alloc(), line), "{line}");
    }
}

const OTHERS: [&str; 40] = [
    "",
    " ",
    "maybe",
    "Ok",
    " ok",
    "ok ",
    "ok\r",
    "ok 1",
    "vars",
    "vars ",
    "vars  1",
    "vars 1 ",
    "vars\t1",
    "vars 01",
    "vars +1",
    "vars -1",
    "vars 4294967296",
    "guard 0",
    "guard 16777217",
    "started 18446744073709551616",
    "implied",
    "implied 1",
    "implied 0 0",
    "implied 00",
    "implied -0 0",
    "implied 01 0",
    "implied 16777217 0",
    "implied 1  0",
    "running 1",
    "unknown 1",
    "unknown 1 lost",
    "loaded aig 1 2",
    "loaded cnf 1",
    "refused 1",
    "refused 1 0",
    "refused 1 15",
    "refused 1 16",
    "refused 1 12 1",
    "refused 1 16 2 word 0",
    "refused 1 16 2 order",
];

fn is_bad(alloc: Global, line: &str) -> bool {
    matches!(read_reply(alloc, line.as_bytes()), ReplyRead::Bad)
}

#[test]
fn lines_that_do_not_answer(rt: HostRuntime) {
    for line in OTHERS {
        assert!(rt; is_bad(rt.alloc(), line), "{line}");
    }
}
