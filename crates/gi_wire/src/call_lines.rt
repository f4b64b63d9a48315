// The lines of calls.
ghost use Rattle.std.specs.Prelude.{◌≡◌, ◌++◌, ◌<◌, ℕ, List, [], true, codes, length, map};
ghost use Rattle.std.specs.Fmt.{signed_decimal};
ghost use Rattle.gi_lit.specs.Literals.{number_of};
ghost use Rattle.gi_outside.specs.Outbox.{Stands};
ghost use Rattle.gi_outside.specs.Sent.{Sends};
ghost use Rattle.gi_outside.specs.World.{World};
ghost use Rattle.gi_wire.specs.CallText.{budget_text, call_text, guard_numbers, has_line, lines_text, listed};

use crate::reply::put_numbered;
use crate::wrapping::{put_guard_words, put_literal_words};
use gi_lit::{Guards, Lit, Lits};
use gi_model::Call;
use gi_outside::{Link, Outbox, Sent};
use gi_text::Digits;

/// Writes the line of a call that may be made, and behind it the bytes of a load. `Add`, `Under`
/// and `Assume` go over several lines, as many words in each as fit, where one would have more than
/// `MAX_LINE` bytes. `Shut`, `Work`, `KnownClause(0)` and more variables than `MAX_VAR` have no
/// line. This takes no memory. After `Failed` a front of the text was written that lacks its last
/// byte, and the link's count of failed writes rose.
pub fn write_call<L: Link>(call: &Call, link: &mut L) -> Sent
    requires { has_line call.now ≡ true }
    ensures { Sends result (L.state link.old) (L.state link.new) (call_text call.now) }
{
    let mut outbox = Outbox::new();
    put_call(&mut outbox, call, link);
    outbox.finish(link)
}

// Puts a call into an empty outbox.
#[tactic(auto, unfolding(crate::specs::CallText::call_text))]
fn put_call<L: Link>(outbox: &mut Outbox, call: &Call, link: &mut L)
    ensures { (start : World) → Stands start (L.state link.old) outbox.old []
        → Stands start (L.state link.new) outbox.new (call_text call.now) }
{
    put_lines(outbox, call, link);
    outbox.put(b"\n", link);
    if let Call::LoadCnf(bytes) = call {
        outbox.put(bytes.as_slice(), link);
    }
}

#[tactic(auto, unfolding(crate::specs::CallText::lines_text))]
fn put_lines<L: Link>(outbox: &mut Outbox, call: &Call, link: &mut L)
    ensures { (start : World) → Stands start (L.state link.old) outbox.old []
        → Stands start (L.state link.new) outbox.new (lines_text call.now) }
{
    match call {
        Call::Vars(n) => put_numbered(outbox, b"vars ", u64::from(*n), link),
        Call::Add(clause) => put_list(outbox, b"add", clause, link),
        Call::NewGuard => outbox.put(b"guard", link),
        Call::Under(guards, clause) => put_under(outbox, guards, clause, link),
        Call::DropGuard(guard) => put_numbered(outbox, b"drop ", u64::from(guard.index()), link),
        Call::Assume(literals) => put_list(outbox, b"assume", literals, link),
        Call::Test => outbox.put(b"test", link),
        Call::Untest => outbox.put(b"untest", link),
        Call::Reasons(literal) => put_reasons(outbox, *literal, link),
        Call::Solve(budget) => put_solve(outbox, *budget, link),
        Call::Pause => outbox.put(b"pause", link),
        Call::Resume => outbox.put(b"resume", link),
        Call::Stop => outbox.put(b"stop", link),
        Call::Poll => outbox.put(b"poll", link),
        Call::Wait => outbox.put(b"wait", link),
        Call::Model => outbox.put(b"model", link),
        Call::Known => outbox.put(b"known", link),
        Call::KnownClause(number) => put_numbered(outbox, b"clause ", u64::from(*number), link),
        Call::LoadCnf(bytes) => {
            put_numbered(outbox, b"load cnf ", bytes.as_slice().len() as u64, link);
        }
        Call::Bye => outbox.put(b"bye", link),
        Call::Shut | Call::Work(_) => {}
    }
}

// Puts a name, a list of literals and a 0.
fn put_list<L: Link>(outbox: &mut Outbox, name: &[u8], literals: &Lits, link: &mut L)
    requires { length name.now < 8 }
    ensures { (start : World) (before : List ℕ) → Stands start (L.state link.old) outbox.old before
        → Stands start (L.state link.new) outbox.new
        (before ++ listed name.now (map number_of literals.now)) }
{
    outbox.put(name, link);
    put_literal_words(outbox, name.len() as u32, literals.as_slice(), link);
    outbox.put(b" 0", link);
}

// Puts a clause under guards.
fn put_under<L: Link>(outbox: &mut Outbox, guards: &Guards, clause: &Lits, link: &mut L)
    ensures { (start : World) (before : List ℕ) → Stands start (L.state link.old) outbox.old before
        → Stands start (L.state link.new) outbox.new
        (before ++ listed (codes "under") (guard_numbers guards.now ++ map number_of clause.now)) }
{
    outbox.put(b"under", link);
    let column = put_guard_words(outbox, 5, guards.as_slice(), link);
    put_literal_words(outbox, column, clause.as_slice(), link);
    outbox.put(b" 0", link);
}

fn put_reasons<L: Link>(outbox: &mut Outbox, literal: Lit, link: &mut L)
    ensures { (start : World) (before : List ℕ) → Stands start (L.state link.old) outbox.old before
        → Stands start (L.state link.new) outbox.new
        (before ++ (codes "reasons " ++ signed_decimal (number_of literal))) }
{
    outbox.put(b"reasons ", link);
    outbox.put(Digits::of(i128::from(literal.to_dimacs())).as_slice(), link);
}

// Puts a solve, and its budget unless it is the greatest.
fn put_solve<L: Link>(outbox: &mut Outbox, budget: u32, link: &mut L)
    ensures { (start : World) (before : List ℕ) → Stands start (L.state link.old) outbox.old before
        → Stands start (L.state link.new) outbox.new
        (before ++ (codes "solve" ++ budget_text budget)) }
{
    outbox.put(b"solve", link);
    if budget != u32::MAX {
        put_numbered(outbox, b" ", u64::from(budget), link);
    }
}
