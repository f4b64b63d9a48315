ghost use Rattle.std.specs.Prelude.{◌≡◌, ℕ, ◌≤◌, ◌/◌, ◌&&◌, ◌↔◌, IsTrue, IfOk, All, List, length, slice_index_or, false};
ghost use Rattle.std.specs.List.{list_all};
ghost use Rattle.gi_lit.specs.Truth.{true_in, clause_true, Fail, IsConsequence};
ghost use Rattle.gi_reference.specs.Search.{FailsFrom, IsWithin};

use gi_lit::{Clause, Lit, Lits, top_variable};
use gi_model::lists::append;
use std::alloc::{AllocError, Global};

/// Whether the values make the literal true; past their end all is false.
#[tactic(auto, unfolding(gi_lit::specs::Truth::true_in))]
fn is_true(values: &[bool], l: Lit) -> bool
    ensures { result ≡ true_in values.now l }
{
    let place = (l.var().index() - 1) as usize;
    let value = place < values.len() && values[place];
    value != l.is_negative()
}

fn is_clause_true(values: &[bool], clause: &[Lit]) -> bool
    ensures { result ≡ clause_true values.now clause.now }
{
    clause.iter().any(|l| is_true(values, *l))
}

fn satisfies(values: &[bool], clauses: &[Clause]) -> bool
    ensures { result ≡ list_all (clause_true values.now) clauses.now }
{
    clauses.iter().all(|c| is_clause_true(values, c.as_slice()))
}

fn makes_true(values: &[bool], lits: &[Lit]) -> bool
    ensures { result ≡ list_all (true_in values.now) lits.now }
{
    lits.iter().all(|l| is_true(values, *l))
}

/// Whether the values satisfy the clauses and make the literals true.
pub fn is_model(values: &[bool], clauses: &[Clause], lits: &[Lit]) -> bool
    ensures { result ≡ (list_all (clause_true values.now) clauses.now
        && list_all (true_in values.now) lits.now) }
{
    satisfies(values, clauses) && makes_true(values, lits)
}

/// At least the greatest variable of the clauses, and at least the start.
fn top_of(clauses: &[Clause], start: u32) -> u32
    ensures start { start ≤ result }
    ensures each { All (λ (c : List ℕ). All (λ l. l / 2 ≤ result) c) clauses.now }
{
    let mut most = start;
    for clause in clauses {
        most = most.max(top_variable(clause.as_slice()));
    }
    most
}

/// Whether no values satisfy both, among those that differ from these in the first places alone.
fn fails_from(clauses: &[Clause], lits: &[Lit], values: &mut [bool], free: usize) -> bool
    requires clauses { All (IsWithin (length values.old)) clauses.now }
    requires lits { IsWithin (length values.old) lits.now }
    requires free { free ≤ length values.old }
    ensures rest { (k : ℕ) → free ≤ k
        → slice_index_or values.new k false ≡ slice_index_or values.old k false }
    ensures fails { IsTrue result ↔ FailsFrom clauses.now lits.now free values.old }
{
    if free == 0 {
        return !is_model(values, clauses, lits);
    }
    let place = free - 1;
    values[place] = false;
    if !fails_from(clauses, lits, values, place) {
        return false;
    }
    values[place] = true;
    fails_from(clauses, lits, values, place)
}

/// Whether no values satisfy both, by trying all.
pub fn fails(alloc: Global, clauses: &[Clause], lits: &[Lit]) -> Result<bool, AllocError>
    ensures { IfOk result (λ b. IsTrue b ↔ Fail clauses.now lits.now) }
{
    let count = top_of(clauses, top_variable(lits).max(1)) as usize;
    let mut values = vec![in alloc; false; count]?;
    Ok(fails_from(clauses, lits, values.as_mut_slice(), count))
}

/// Whether the literal is true wherever the clauses and the given literals are.
pub fn is_consequence(
    alloc: Global,
    clauses: &[Clause],
    given: &[Lit],
    l: Lit,
) -> Result<bool, AllocError>
    ensures { IfOk result (λ b. IsTrue b ↔ IsConsequence clauses.now given.now l) }
{
    let mut lits = Lits::new(alloc);
    append(&mut lits, given)?;
    lits.push(l.not())?;
    fails(alloc, clauses, lits.as_slice())
}
