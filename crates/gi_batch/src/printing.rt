// What is printed of replies.
ghost use Rattle.std.specs.Prelude.{◌≡◌, ◌+◌, ◌*◌, ◌/◌, ◌≤◌, ◌<◌, ◌++◌, ◌∷◌, [], ℕ, List, length, take, drop, decimal};
ghost use Rattle.std.specs.List.{flat_map};
ghost use Rattle.std.specs.Fork.{slice_chunk};
ghost use Rattle.gi_outside.specs.World.{World};
ghost use Rattle.gi_outside.specs.Outbox.{Stands};
ghost use Rattle.gi_outside.specs.Sent.{Sends};
ghost use Rattle.gi_dimacs.specs.Literals.{literal_text};
ghost use Rattle.gi_batch.specs.Output.{answer_text, line_text, model_text, words_of};

use crate::answer::Answer;
use gi_lit::Lit;
use gi_outside::{Link, Outbox, Sent};

// How many words a line of a model has, but the last.
const WORDS: usize = 12;

/// Writes the line of an answer. Takes no memory.
pub fn print_answer<L: Link>(answer: Answer, user: &mut L) -> Sent
    ensures { Sends result (L.state user.old) (L.state user.new) (answer_text answer) }
{
    let mut outbox = Outbox::new();
    put_answer(&mut outbox, answer, user);
    outbox.finish(user)
}

fn put_answer<L: Link>(outbox: &mut Outbox, answer: Answer, user: &mut L)
    ensures { (start : World) → Stands start (L.state user.old) outbox.old []
        → Stands start (L.state user.new) outbox.new (answer_text answer) }
{
    match answer {
        Answer::Sat => outbox.put(b"s SATISFIABLE\n", user),
        Answer::Unsat => outbox.put(b"s UNSATISFIABLE\n", user),
        Answer::Unknown => outbox.put(b"s UNKNOWN\n", user),
    }
}

/// Writes the lines of a model. Takes no memory.
pub fn print_model<L: Link>(literals: &[Lit], user: &mut L) -> Sent
    ensures { Sends result (L.state user.old) (L.state user.new) (model_text literals.now) }
{
    let mut outbox = Outbox::new();
    put_model(&mut outbox, literals, user);
    outbox.finish(user)
}

// Puts the lines, each of twelve words but the last.
fn put_model<L: Link>(outbox: &mut Outbox, literals: &[Lit], user: &mut L)
    ensures { (start : World) → Stands start (L.state user.old) outbox.old []
        → Stands start (L.state user.new) outbox.new (model_text literals.now) }
{
    let full = literals.len() / WORDS;
    for i in 0..full {
        put_full_line(outbox, literals, i, user);
    }
    put_last_line(outbox, literals, full, user);
}

// Puts a line of literals alone.
fn put_full_line<L: Link>(outbox: &mut Outbox, literals: &[Lit], i: usize, user: &mut L)
    requires { i * 12 + 12 ≤ length literals.now }
    ensures { (start : World) (before : List ℕ) → Stands start (L.state user.old) outbox.old before
        → Stands start (L.state user.new) outbox.new
        (before ++ line_text (slice_chunk (words_of literals.now) 12 i)) }
{
    put_literals(outbox, &literals[i * WORDS..i * WORDS + WORDS], user);
    outbox.put(b"\n", user);
}

// Puts the line of the literals that are left, and 0.
fn put_last_line<L: Link>(outbox: &mut Outbox, literals: &[Lit], i: usize, user: &mut L)
    requires begun { i * 12 ≤ length literals.now }
    requires last { length literals.now < i * 12 + 12 }
    ensures { (start : World) (before : List ℕ) → Stands start (L.state user.old) outbox.old before
        → Stands start (L.state user.new) outbox.new
        (before ++ line_text (slice_chunk (words_of literals.now) 12 i)) }
{
    put_literals(outbox, &literals[i * WORDS..], user);
    outbox.put(b" 0\n", user);
}

// Puts `v`, and each literal behind a space.
fn put_literals<L: Link>(outbox: &mut Outbox, literals: &[Lit], user: &mut L)
    ensures { (start : World) (before : List ℕ) → Stands start (L.state user.old) outbox.old before
        → Stands start (L.state user.new) outbox.new
        (before ++ 118 ∷ flat_map (λ l. 32 ∷ literal_text l) literals.now) }
{
    outbox.put(b"v", user);
    for literal in literals {
        outbox.put(b" ", user);
        put_literal(outbox, *literal, user);
    }
}

#[tactic(auto, unfolding(gi_dimacs::specs::Literals::literal_text))]
fn put_literal<L: Link>(outbox: &mut Outbox, literal: Lit, user: &mut L)
    ensures { (start : World) (before : List ℕ) → Stands start (L.state user.old) outbox.old before
        → Stands start (L.state user.new) outbox.new (before ++ literal_text literal) }
{
    if literal.code() % 2 == 1 {
        outbox.put(b"-", user);
        outbox.put_number(u64::from(literal.code() / 2), user);
        return;
    }
    outbox.put_number(u64::from(literal.code() / 2), user);
}
