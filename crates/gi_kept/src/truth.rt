// Whether models are true.
ghost use Rattle.std.specs.Prelude.{◌≡◌, ◌*◌, ◌/◌, ◌||◌, not, Bool, ℕ, List, false, slice_index_or};
ghost use Rattle.std.specs.List.{list_all, list_any};
ghost use Rattle.gi_lit.specs.Problem.{Group};
ghost use Rattle.gi_kept.specs.Marks.{has_marked, holds_marked, meets_marked};

use crate::guarded::Guarded;
use crate::marks::Marks;
use gi_lit::{Lit, Lits, Var};

// Whether one literal of the clause is in the set.
pub fn meets(model: &Marks, clause: &[Lit]) -> bool
    ensures { result ≡ meets_marked model.now clause.now }
{
    clause.iter().any(|l| model.has(l.code()))
}

// Whether it is so for each clause.
pub fn meets_each(model: &Marks, clauses: &[Lits]) -> bool
    ensures { result ≡ list_all (meets_marked model.now) clauses.now }
{
    clauses.iter().all(|c| meets(model, c.as_slice()))
}

// Whether all guards are assumed.
fn are_assumed(assumed: &Marks, guards: &[Var]) -> bool
    ensures { result ≡ list_all (λ g. slice_index_or assumed.now (2 * g) false) guards.now }
{
    guards.iter().all(|g| assumed.has(g.positive().code()))
}

// Whether the clause isn't in force, or one of its literals is in the set.
fn is_met(model: &Marks, assumed: &Marks, group: &Guarded) -> bool
    ensures { result ≡ has_marked model.now assumed.now group.now }
{
    if !are_assumed(assumed, group.guards.as_slice()) {
        return true;
    }
    meets(model, group.clause.as_slice())
}

// Whether it is so for each clause under guards.
pub fn meets_forced(model: &Marks, assumed: &Marks, groups: &[Guarded]) -> bool
    ensures { result ≡ list_all (has_marked model.now assumed.now) groups.now }
{
    groups.iter().all(|q| is_met(model, assumed, q))
}

// Whether each assumption is of a guard, or in the set.
pub fn holds_each(guards: &Marks, model: &Marks, assumed: &[Lit]) -> bool
    ensures { result ≡ list_all (holds_marked guards.now model.now) assumed.now }
{
    assumed
        .iter()
        .all(|l| guards.has(l.var().index()) || model.has(l.code()))
}
