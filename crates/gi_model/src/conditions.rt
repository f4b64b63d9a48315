//! The conditions of the table of refusals.

ghost use Rattle.std.specs.Prelude.{◌≡◌, ◌+◌, ◌-◌, ◌==◌, ◌&&◌, ◌||◌, not, nat_lt, length, false};
ghost use Rattle.std.specs.List.{list_any};
ghost use Rattle.gi_lit.specs.Problem.{has, is_usable, is_guard_lit};
ghost use Rattle.gi_model.specs.Limits.{most_pending};
ghost use Rattle.gi_model.specs.Refusals.{is_scoped, some_unusable, has_bad_lit, is_not_guard, is_held, is_beyond, lacks_scope, is_unlisted, needs_solve, is_none_yet, lacks_model, lacks_clause};
ghost use Rattle.gi_model.specs.History.{is_load};

use crate::calls::Call;
use crate::facts::Facts;
use crate::limits::{MAX_PENDING, MAX_SCOPES, MAX_SOLVES};
use crate::lists::{count_given, has_lit};
use gi_lit::{Lit, MAX_VAR, Var, top_variable};

/// Whether two counts together are too many pending assumptions.
fn too_many(a: usize, b: usize) -> bool
    ensures { result ≡ nat_lt most_pending (a + b) }
{
    match a.checked_add(b) {
        None => true,
        Some(n) => n > MAX_PENDING,
    }
}

/// Whether it is the positive literal of an active guard.
fn is_guard_lit<F: Facts>(facts: &F, l: Lit) -> bool
    ensures { result ≡ is_guard_lit (F.state facts.now).problem l }
{
    let code = l.code();
    code == 2 * (code / 2) && facts.is_active(l.var())
}

fn some_unusable<F: Facts>(facts: &F, lits: &[Lit]) -> bool
    ensures { result ≡ some_unusable (F.state facts.now).problem lits.now }
{
    lits.iter().any(|l| !facts.is_usable(*l))
}

fn some_unassumable<F: Facts>(facts: &F, lits: &[Lit]) -> bool
    ensures { result ≡ list_any (λ l. not (is_usable (F.state facts.now).problem l
        || is_guard_lit (F.state facts.now).problem l)) lits.now }
{
    lits.iter()
        .any(|l| !(facts.is_usable(*l) || is_guard_lit(facts, *l)))
}

fn some_inactive<F: Facts>(facts: &F, guards: &[Var]) -> bool
    ensures { result ≡ list_any (λ g. not (has (F.state facts.now).problem.active g)) guards.now }
{
    guards.iter().any(|g| !facts.is_active(*g))
}

/// `Scoped`.
pub fn is_scoped<F: Facts>(facts: &F, call: &Call) -> bool
    ensures { result ≡ is_scoped (F.state facts.now).scopes call.now }
{
    match call {
        Call::DropGuard(_) => facts.depth() > 0,
        _ => false,
    }
}

/// `Lit`.
pub fn has_bad_lit<F: Facts>(facts: &F, call: &Call) -> bool
    requires { is_load call.now ≡ false }
    ensures { result ≡ has_bad_lit (F.state facts.now).problem call.now }
{
    match call {
        Call::Add(c) => some_unusable(facts, c.as_slice()),
        Call::Under(_, c) => some_unusable(facts, c.as_slice()),
        Call::Assume(lits) => some_unassumable(facts, lits.as_slice()),
        Call::Reasons(m) => !facts.is_usable(*m),
        _ => false,
    }
}

/// `NotGuard`.
pub fn is_not_guard<F: Facts>(facts: &F, call: &Call) -> bool
    ensures { result ≡ is_not_guard (F.state facts.now).problem call.now }
{
    match call {
        Call::Under(guards, _) => some_inactive(facts, guards.as_slice()),
        Call::DropGuard(g) => !facts.is_active(*g),
        _ => false,
    }
}

/// `Held`.
pub fn is_held<F: Facts>(facts: &F, call: &Call) -> bool
    ensures { result ≡ is_held (F.state facts.now) call.now }
{
    match call {
        Call::DropGuard(g) => {
            has_lit(facts.pending(), g.positive())
                || has_lit(facts.solve().paused_assumed(), g.positive())
        }
        _ => false,
    }
}

/// `Limit`.
pub fn is_beyond<F: Facts>(facts: &F, call: &Call) -> bool
    requires { is_load call.now ≡ false }
    ensures { result ≡ is_beyond (F.state facts.now) call.now }
{
    match call {
        Call::Vars(n) => *n > MAX_VAR,
        Call::Add(c) => facts.is_full(c.as_slice(), c.len() as u128),
        Call::NewGuard => facts.lacks_guard(),
        Call::Under(guards, c) => {
            facts.is_full(c.as_slice(), count_given(guards.as_slice(), c.as_slice()))
        }
        Call::Assume(lits) => {
            top_variable(lits.as_slice()) > MAX_VAR || too_many(facts.pending().len(), lits.len())
        }
        Call::Test => facts.depth() >= MAX_SCOPES,
        Call::Solve(_) => facts.serial() >= MAX_SOLVES,
        _ => false,
    }
}

/// `NoScope`.
pub fn lacks_scope<F: Facts>(facts: &F, call: &Call) -> bool
    ensures { result ≡ lacks_scope (F.state facts.now).scopes call.now }
{
    match call {
        Call::Untest => facts.depth() == 0,
        _ => false,
    }
}

/// `NotImplied`.
pub fn is_unlisted<F: Facts>(facts: &F, call: &Call) -> bool
    ensures { result ≡ is_unlisted (F.state facts.now).scopes call.now }
{
    match call {
        Call::Reasons(m) => !facts.lists(*m),
        _ => false,
    }
}

/// `NoSolve`.
pub fn lacks_solve<F: Facts>(facts: &F, call: &Call) -> bool
    ensures { result ≡ (needs_solve call.now && is_none_yet (F.state facts.now).solve) }
{
    call.needs_solve() && facts.solve().is_none()
}

/// `NoModel`.
pub fn lacks_model<F: Facts>(facts: &F, call: &Call) -> bool
    ensures { result ≡ lacks_model (F.state facts.now).solve call.now }
{
    match call {
        Call::Model => !facts.solve().has_model(),
        _ => false,
    }
}

/// `NoClause`.
pub fn lacks_clause<F: Facts>(facts: &F, call: &Call) -> bool
    ensures { result ≡ lacks_clause (F.state facts.now).known call.now }
{
    match call {
        Call::KnownClause(i) => *i == 0 || facts.known() < *i as u64,
        _ => false,
    }
}
