ghost use Rattle.std.specs.Prelude.{◌≡◌, ◌+◌, ◌<◌, ◌≤◌, ℕ, List, [], length, All, Contains, IfOk};
ghost use Rattle.gi_lit.specs.Closure.{IsClosed};
ghost use Rattle.gi_store.specs.StoreView.{StoreView};
ghost use Rattle.gi_cdcl.specs.Sound.{stored};
ghost use Rattle.gi_cdcl.specs.Values.{IsPassed};
ghost use Rattle.gi_cdcl.specs.Invariant.{SearchInvariant, HasLearnt};
ghost use Rattle.gi_cdcl.specs.Steps.{AddsNews, FindsEmpty, LeadsTo};

use crate::assume::{Next, analyze_final, next_assumption};
use crate::decide::{assignment, free_literal};
use crate::learn::handle_conflict;
use crate::search_state::SearchState;
use gi_lit::{Assign, Clause, Lit, Lits};
use gi_store::Store;
use std::alloc::AllocError;

/// What a step of a search came to.
#[derive(Drop)]
pub(crate) enum StepResult {
    /// A literal was decided.
    Decided,
    /// A clause was learnt that isn't empty.
    Learnt,
    /// The clauses conflict at the root: the empty clause was learnt, or a stored one is empty.
    Refuted,
    /// The values satisfy the clauses in force and the assumptions.
    Sat(Assign),
    /// These of the assumptions fail with the clauses in force under them.
    Failed(Lits),
}

/// Decides a variable that has no value; where none is left, the trail is a model.
fn decide_variable(state: &mut SearchState, store: &Store) -> Result<StepResult, AllocError>
    requires closed { IsClosed (stored store.now) state.old.trail.lits }
    requires vars { store.now.vars ≤ state.old.trail.vars }
    requires passed { IsPassed store.now state.old.trail.lits state.old.vars_passed }
    requires levels { length state.old.trail.level_starts ≤ length state.old.trail.lits }
    ensures leads { IfOk result
        (λ step. (assumed : List ℕ) (lits : ℕ)
        → SearchInvariant state.old.prop store.now state.old.trail assumed state.old.vars_passed
        lits → All (Contains state.old.trail.lits) assumed
        → LeadsTo state.old.trail state.new.prop store.now state.new.trail assumed
        state.new.vars_passed lits step) }
    ensures adds { IfOk result (λ step. (news : List (List ℕ)) → AddsNews news news step) }
    ensures lits { state.new.assumed_passed ≡ state.old.assumed_passed }
{
    let vars = store.vars();
    let _level = state.trail.level();
    match free_literal(
        store,
        &state.trail,
        &mut state.order,
        &mut state.vars_passed,
    ) {
        Some(l) => {
            state.trail.decide(l)?;
            Ok(StepResult::Decided)
        }
        None => {
            let values = assignment(state.alloc, &state.trail, vars)?;
            Ok(StepResult::Sat(values))
        }
    }
}

/// Goes on where nothing is left to propagate: decides the next assumption or a variable, or has a
/// verdict.
fn decide_next(
    state: &mut SearchState,
    store: &Store,
    assumed: &[Lit],
) -> Result<StepResult, AllocError>
    requires going { SearchInvariant state.old.prop store.now state.old.trail assumed.now
        state.old.vars_passed state.old.assumed_passed }
    requires closed { IsClosed (stored store.now) state.old.trail.lits }
    ensures adds { IfOk result (λ step. (news : List (List ℕ)) → AddsNews news news step) }
    ensures leads { IfOk result
        (LeadsTo state.old.trail state.new.prop store.now state.new.trail assumed.now
        state.new.vars_passed state.new.assumed_passed) }
{
    let _vars = store.vars();
    let _level = state.trail.level();
    match next_assumption(&state.trail, assumed, &mut state.assumed_passed) {
        Next::Failed(l) => {
            let failing = analyze_final(
                state.alloc,
                store,
                &state.trail,
                &mut state.seen,
                assumed,
                l,
            )?;
            Ok(StepResult::Failed(failing))
        }
        Next::Free(l) => {
            state.trail.decide(l)?;
            Ok(StepResult::Decided)
        }
        Next::AllTrue => decide_variable(state, store),
    }
}

/// Propagates, and then faces a conflict, decides or has a verdict.
pub(crate) fn take_step(
    state: &mut SearchState,
    store: &mut Store,
    assumed: &[Lit],
    news: &mut Vec<Clause>,
) -> Result<StepResult, AllocError>
    requires { SearchInvariant state.old.prop store.old state.old.trail assumed.now
        state.old.vars_passed state.old.assumed_passed }
    ensures learnt { (s : StoreView) → HasLearnt s store.old news.old.items
        → HasLearnt s store.new news.new.items }
    ensures few { length news.new.items ≤ length news.old.items + 1 }
    ensures adds { IfOk result (AddsNews news.old.items news.new.items) }
    ensures root { IfOk result
        (λ step. Contains (stored store.old) [] → FindsEmpty news.old.items news.new.items step) }
    ensures leads { IfOk result
        (LeadsTo state.old.trail state.new.prop store.new state.new.trail assumed.now
        state.new.vars_passed state.new.assumed_passed) }
{
    let _level = state.trail.level();
    match state.prop.propagate(store, &mut state.trail) {
        Some(conflict) => handle_conflict(state, store, conflict, news),
        None => decide_next(state, store, assumed),
    }
}
