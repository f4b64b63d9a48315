//! The clauses of a gate, and variables by number.
ghost use Rattle.std.specs.Prelude.{◌≡◌, ◌∷◌, [], ◌++◌, IfOk, OnOk};
ghost use Rattle.gi_lit.specs.Literals.{IsVariable};
ghost use Rattle.gi_circuit.specs.Frames.{gate_clauses};

use gi_lit::{Clause, Clauses, Lit, Lits, Var};
use std::alloc::{AllocError, Global};

/// The variable of that number.
pub(crate) fn variable(n: u32) -> Var
    requires { IsVariable n }
    ensures { result ≡ n }
{
    match Var::new(n) {
        Some(v) => v,
        None => unreachable!(),
    }
}

/// The clause of some literals.
fn clause(alloc: Global, lits: &[Lit]) -> Result<Clause, AllocError>
    ensures { IfOk result (λ c. c ≡ lits.now) }
{
    let items = lits.to_vec(alloc)?;
    Ok(Lits::from_vec(items))
}

/// The clause of one literal.
pub(crate) fn push_unit(alloc: Global, clauses: &mut Clauses, x: Lit) -> Result<(), AllocError>
    ensures { OnOk result (clauses.new ≡ clauses.old ++ (x ∷ []) ∷ []) }
{
    let unit = clause(alloc, &[x])?;
    clauses.push(unit)
}

/// The clauses that say that x is a and b.
pub(crate) fn push_gate(
    alloc: Global,
    clauses: &mut Clauses,
    x: Lit,
    a: Lit,
    b: Lit,
) -> Result<(), AllocError>
    ensures { OnOk result (clauses.new ≡ clauses.old ++ gate_clauses x a b) }
{
    let first = clause(alloc, &[x.not(), a])?;
    let second = clause(alloc, &[x.not(), b])?;
    let third = clause(alloc, &[x, a.not(), b.not()])?;
    clauses.push(first)?;
    clauses.push(second)?;
    clauses.push(third)
}
