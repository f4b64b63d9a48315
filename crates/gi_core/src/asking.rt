//! What is asked of a solver, as lists of their own.

ghost use Rattle.std.specs.Prelude.{◌≡◌, ◌+◌, ◌-◌, ◌*◌, ◌≤◌, if◌then◌else◌, IfOk, length, slice_index_or, []};
ghost use Rattle.gi_lit.specs.Literals.{max_var};
ghost use Rattle.gi_model.specs.Replies.{model_of};

use crate::solver::Solver;
use gi_lit::{Assign, Lit, Lits, Var};
use std::alloc::{AllocError, Global};

/// The literals again, as a list of their own.
fn copied(alloc: Global, lits: &[Lit]) -> Result<Lits, AllocError>
    ensures { IfOk result (λ ls. ls ≡ lits.now) }
{
    Ok(Lits::from_vec(Vec::from_slice(alloc, lits)?))
}

/// The learnt clause of that number, from 1, as a list of its own.
pub fn known_clause(alloc: Global, solver: &Solver, i: u32) -> Result<Lits, AllocError>
    requires low { 1 ≤ i }
    requires high { i ≤ length solver.now.known }
    ensures { IfOk result (λ c. c ≡ slice_index_or solver.now.known (i - 1) []) }
{
    match solver.known_at(u64::from(i)) {
        Some(clause) => copied(alloc, clause),
        None => unreachable!(),
    }
}

/// The true literal of each problem variable, rising.
pub fn true_literals(alloc: Global, solver: &Solver, values: &Assign) -> Result<Lits, AllocError>
    requires { length values.now ≤ max_var }
    ensures { IfOk result (λ ls. ls ≡ model_of solver.now.problem values.now) }
{
    let mut lits = Lits::new(alloc);
    for i in 0..values.len() {
        let Some(v) = Var::new(i + 1) else {
            unreachable!()
        };
        if solver.is_problem_var(v) {
            lits.push(literal(v, values.get(v)))?;
        }
    }
    Ok(lits)
}

/// The literal of a variable that has this value.
fn literal(v: Var, value: bool) -> Lit
    ensures { result ≡ (if value then 2 * v else 2 * v + 1) }
{
    if value { v.positive() } else { v.negative() }
}
