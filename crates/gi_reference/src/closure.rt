ghost use Rattle.std.specs.Prelude.{◌≡◌, ◌==◌, ◌&&◌, ◌↔◌, not, IsTrue, IfOk, IfSome, IfNone, Contains, All, true, false};
ghost use Rattle.std.specs.List.{list_any};
ghost use Rattle.gi_lit.specs.Literals.{opposite};
ghost use Rattle.gi_lit.specs.Problem.{has};
ghost use Rattle.gi_lit.specs.Closure.{Conflicts};
ghost use Rattle.gi_reference.specs.Search.{IsScan, IsNext, IsOutcome};

use crate::lists::{has_opposites, has_some};
use crate::outcome::{Next, Outcome, Scan};
use gi_lit::{Clause, Lit, Lits};
use gi_model::lists::{append, has_lit};
use std::alloc::{AllocError, Global};

/// A literal of the clause whose opposite isn't there.
fn first_free(lits: &[Lit], clause: &[Lit]) -> Option<Lit>
    ensures some { IfSome result
        (λ l. Contains clause.now l × (has lits.now (opposite l) ≡ false)) }
    ensures none { IfNone result (All (λ l. has lits.now (opposite l) ≡ true) clause.now) }
{
    for l in clause {
        if !has_lit(lits, l.not()) {
            return Some(*l);
        }
    }
    None
}

/// Whether the clause has another literal whose opposite isn't there.
fn has_other_free(lits: &[Lit], clause: &[Lit], l: Lit) -> bool
    ensures { result ≡ list_any (λ m. not (l == m) && not (has lits.now (opposite m))) clause.now }
{
    let code = l.code();
    clause
        .iter()
        .any(|m| code != m.code() && !has_lit(lits, m.not()))
}

fn look_at(lits: &[Lit], clause: &[Lit]) -> Scan
    ensures { IsScan lits.now clause.now result }
{
    if has_some(lits, clause) {
        return Scan::Settled;
    }
    match first_free(lits, clause) {
        None => Scan::Falsified,
        Some(l) => {
            if has_other_free(lits, clause, l) {
                Scan::Settled
            } else {
                Scan::Forced(l)
            }
        }
    }
}

/// The first thing that follows from clauses after some literals.
fn look(clauses: &[Clause], lits: &[Lit]) -> Next
    ensures { IsNext clauses.now lits.now result }
{
    if has_opposites(lits) {
        return Next::Clash;
    }
    for clause in clauses {
        match look_at(lits, clause.as_slice()) {
            Scan::Settled => {}
            Scan::Forced(l) => return Next::Forced(l),
            Scan::Falsified => return Next::Clash,
        }
    }
    Next::Closed
}

/// The unit closure of clauses under the literals that are given.
pub fn closure(alloc: Global, clauses: &[Clause], given: &[Lit]) -> Result<Outcome, AllocError>
    ensures { IfOk result (IsOutcome clauses.now given.now) }
{
    let mut lits = Lits::new(alloc);
    append(&mut lits, given)?;
    loop {
        match look(clauses, lits.as_slice()) {
            Next::Clash => return Ok(Outcome::Conflict),
            Next::Closed => return Ok(Outcome::Whole(lits)),
            Next::Forced(l) => lits.push(l)?,
        }
    }
}

/// Whether the unit closure of clauses under the literals that are given conflicts.
pub fn conflicts(alloc: Global, clauses: &[Clause], given: &[Lit]) -> Result<bool, AllocError>
    ensures { IfOk result (λ b. IsTrue b ↔ Conflicts clauses.now given.now) }
{
    match closure(alloc, clauses, given)? {
        Outcome::Conflict => Ok(true),
        Outcome::Whole(_) => Ok(false),
    }
}
