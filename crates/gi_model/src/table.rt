//! The table of refusals.

ghost use Rattle.std.specs.Prelude.{◌≡◌, is_some, false};
ghost use Rattle.gi_model.specs.State.{live_run};
ghost use Rattle.gi_model.specs.Refusals.{is_over, admits};
ghost use Rattle.gi_model.specs.Early.{early, lacking};
ghost use Rattle.gi_model.specs.History.{is_load};

use crate::calls::Call;
use crate::conditions::{
    has_bad_lit, is_beyond, is_held, is_not_guard, is_scoped, is_unlisted, lacks_clause,
    lacks_model, lacks_scope, lacks_solve,
};
use crate::facts::Facts;
use crate::life::Life;
use crate::refusal::Refusal;
use crate::solve::Solve;

/// Whether a solve runs that work may go on with.
pub fn is_live<F: Facts>(facts: &F) -> bool
    ensures { result ≡ is_some (live_run (F.state facts.now)) }
{
    match facts.life() {
        Life::Alive => match facts.solve() {
            Solve::Running(_) => true,
            Solve::Paused(_) => false,
            Solve::Ended(_, _) => false,
            Solve::Idle => false,
        },
        Life::Shut => false,
        Life::Dead => false,
    }
}

/// The refusal that the table names: the first whose condition holds. Of a call with a payload,
/// only those that come before the payload is read.
pub fn refusal_of<F: Facts>(facts: &F, call: &Call) -> Option<Refusal>
    ensures { result ≡ early (F.state facts.now) call.now }
{
    if call.is_work() {
        return None;
    }
    if is_over(facts) {
        return Some(Refusal::Dead);
    }
    if !is_admitted(facts, call) {
        return Some(Refusal::Busy);
    }
    if call.is_load() {
        return None;
    }
    if is_scoped(facts, call) {
        return Some(Refusal::Scoped);
    }
    if has_bad_lit(facts, call) {
        return Some(Refusal::Lit);
    }
    if is_not_guard(facts, call) {
        return Some(Refusal::NotGuard);
    }
    if is_held(facts, call) {
        return Some(Refusal::Held);
    }
    if is_beyond(facts, call) {
        return Some(Refusal::Limit);
    }
    lacks(facts, call)
}

fn is_over<F: Facts>(facts: &F) -> bool
    ensures { result ≡ is_over (F.state facts.now).life }
{
    facts.life().is_over()
}

fn is_admitted<F: Facts>(facts: &F, call: &Call) -> bool
    ensures { result ≡ admits (F.state facts.now).solve call.now }
{
    facts.solve().admits(call)
}

/// The refusals for what isn't there.
fn lacks<F: Facts>(facts: &F, call: &Call) -> Option<Refusal>
    requires { is_load call.now ≡ false }
    ensures { result ≡ lacking (F.state facts.now) call.now }
{
    if lacks_scope(facts, call) {
        return Some(Refusal::NoScope);
    }
    if is_unlisted(facts, call) {
        return Some(Refusal::NotImplied);
    }
    if lacks_solve(facts, call) {
        return Some(Refusal::NoSolve);
    }
    if lacks_model(facts, call) {
        return Some(Refusal::NoModel);
    }
    if lacks_clause(facts, call) {
        return Some(Refusal::NoClause);
    }
    None
}
