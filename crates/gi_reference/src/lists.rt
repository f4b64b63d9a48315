ghost use Rattle.std.specs.Prelude.{◌≡◌, ◌<◌, ◌≤◌, ◌++◌, ◌∷◌, [], ◌↔◌, IsTrue, take, map, length, slice_index, IfOk, OnOk};
ghost use Rattle.std.specs.List.{list_any, list_all};
ghost use Rattle.gi_lit.specs.Problem.{has, without_var, without};
ghost use Rattle.gi_lit.specs.Lists.{IsDistinct, IsSublist};
ghost use Rattle.gi_lit.specs.Literals.{opposite};

use gi_lit::{Clause, Lit, Lits, Var};
use gi_model::lists::{has_lit, names_var};
use std::alloc::{AllocError, Global};

/// Whether both lists have the same literals in the same order.
pub fn is_same(lits: &[Lit], other: &[Lit]) -> bool
    ensures { IsTrue result ↔ (lits.now ≡ other.now) }
{
    lits == other
}

/// Whether each literal of the part stands in the list.
pub fn has_all(lits: &[Lit], part: &[Lit]) -> bool
    ensures { result ≡ list_all (has lits.now) part.now }
{
    part.iter().all(|l| has_lit(lits, *l))
}

/// Whether some literal of the part stands in the list.
pub fn has_some(lits: &[Lit], part: &[Lit]) -> bool
    ensures { result ≡ list_any (has lits.now) part.now }
{
    part.iter().any(|l| has_lit(lits, *l))
}

/// Whether each literal of some clause stands in the list.
pub fn has_clause(lits: &[Lit], clauses: &[Clause]) -> bool
    ensures { result ≡ list_any (λ c. list_all (has lits.now) c) clauses.now }
{
    clauses.iter().any(|c| has_all(lits, c.as_slice()))
}

/// Whether some literal stands beside its opposite.
pub fn has_opposites(lits: &[Lit]) -> bool
    ensures { result ≡ list_any (λ l. has lits.now (opposite l)) lits.now }
{
    lits.iter().any(|l| has_lit(lits, l.not()))
}

/// Whether the literal stands before that place.
fn has_before(lits: &[Lit], place: usize, l: Lit) -> bool
    requires { place ≤ length lits.now }
    ensures { result ≡ has (take place lits.now) l }
{
    has_lit(&lits[..place], l)
}

/// Whether no literal stands twice.
pub fn is_distinct(lits: &[Lit]) -> bool
    ensures { IsTrue result ↔ IsDistinct lits.now }
{
    for i in 0..lits.len() {
        if has_before(lits, i, lits[i]) {
            return false;
        }
    }
    true
}

/// Whether the literal stands at that place.
fn is_at(lits: &[Lit], place: usize, l: Lit) -> bool
    ensures { IsTrue result ↔ ((place < length lits.now) × (slice_index lits.now place ≡ l)) }
{
    place < lits.len() && lits[place].code() == l.code()
}

/// Whether the part is the whole list with some places left out.
pub fn is_sublist(part: &[Lit], whole: &[Lit]) -> bool
    ensures { IsTrue result ↔ IsSublist part.now whole.now }
{
    let mut met = 0;
    for l in whole {
        if is_at(part, met, *l) {
            met += 1;
        }
    }
    met == part.len()
}

/// Whether the variable stands in the list.
pub fn has_var(vars: &[Var], v: Var) -> bool
    ensures { result ≡ has vars.now v }
{
    let wanted = v.index();
    vars.iter().any(|w| wanted == w.index())
}

/// The opposites of the literals, in order.
pub fn negation(alloc: Global, clause: &[Lit]) -> Result<Lits, AllocError>
    ensures { IfOk result (λ ls. ls ≡ map opposite clause.now) }
{
    let lits = clause.iter().map(|l| l.not()).collect(alloc)?;
    Ok(Lits::from_vec(lits))
}

/// Puts a copy of a clause behind those of the list.
pub fn push_copy(to: &mut Vec<Clause>, clause: &Clause) -> Result<(), AllocError>
    ensures { OnOk result (to.new.items ≡ to.old.items ++ clause.now ∷ []) }
{
    to.push(clause.copy()?)?;
    Ok(())
}

/// Puts copies of clauses behind those of the list.
pub fn append_copies(to: &mut Vec<Clause>, clauses: &[Clause]) -> Result<(), AllocError>
    ensures { OnOk result (to.new.items ≡ to.old.items ++ clauses.now) }
{
    for clause in clauses {
        to.push(clause.copy()?)?;
    }
    Ok(())
}

/// The clauses of the one list, then those of the other.
pub fn joined(alloc: Global, clauses: &[Clause], more: &[Clause]) -> Result<Vec<Clause>, AllocError>
    ensures { IfOk result (λ cs. cs.items ≡ clauses.now ++ more.now) }
{
    let mut all = Vec::new(alloc);
    append_copies(&mut all, clauses)?;
    append_copies(&mut all, more)?;
    Ok(all)
}

/// The clauses that don't name the variable, in order.
#[tactic(auto, unfolding(gi_lit::specs::Problem::without_var))]
pub fn without_var(alloc: Global, clauses: Vec<Clause>, v: Var) -> Result<Vec<Clause>, AllocError>
    ensures { IfOk result (λ cs. cs.items ≡ without_var v clauses.items) }
{
    clauses
        .into_iter()
        .filter(|c| !names_var(c.as_slice(), v))
        .collect(alloc)
}

/// The other variables, in order.
#[tactic(auto, unfolding(gi_lit::specs::Problem::without))]
pub fn without(alloc: Global, vars: Vec<Var>, v: Var) -> Result<Vec<Var>, AllocError>
    ensures { IfOk result (λ vs. vs.items ≡ without v vars.items) }
{
    let unwanted = v.index();
    vars.into_iter()
        .filter(|w| w.index() != unwanted)
        .collect(alloc)
}
