//! Small helpers over lists of literals.

ghost use Rattle.std.specs.Prelude.{◌≡◌, ◌+◌, ◌-◌, ◌++◌, length, OnOk};
ghost use Rattle.gi_lit.specs.Problem.{has, names};

use gi_lit::{Lit, Lits, Var};
use std::alloc::AllocError;

/// Whether the literal stands in the list.
pub fn has_lit(lits: &[Lit], l: Lit) -> bool
    ensures { result ≡ has lits.now l }
{
    let wanted = l.code();
    lits.iter().any(|m| wanted == m.code())
}

/// Whether the clause names the variable.
pub fn names_var(clause: &[Lit], v: Var) -> bool
    ensures { result ≡ names v clause.now }
{
    let wanted = v.index();
    clause.iter().any(|l| l.var().index() == wanted)
}

/// Puts literals behind those of the list. Want of memory may leave some of them there.
pub fn append(to: &mut Lits, lits: &[Lit]) -> Result<(), AllocError>
    ensures { OnOk result (to.new ≡ to.old ++ lits.now) }
{
    for l in lits {
        to.push(*l)?;
    }
    Ok(())
}

/// How many literals a clause under guards has as given: its own, and one for each guard after the
/// first.
pub fn count_given(guards: &[Var], clause: &[Lit]) -> u128
    ensures { result ≡ length clause.now + (length guards.now - 1) }
{
    clause.len() as u128 + guards.len().saturating_sub(1) as u128
}
