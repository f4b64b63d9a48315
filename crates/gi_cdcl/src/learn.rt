ghost use Rattle.std.specs.Prelude.{◌≡◌, ◌+◌, ◌-◌, ◌<◌, ◌≤◌, ℕ, List, [], ◌∷◌, ◌++◌, length, Contains, IfOk, OnOk};
ghost use Rattle.gi_lit.specs.Learnt.{IsFresh, IsDerived};
ghost use Rattle.gi_store.specs.StoreView.{StoreView, IsWithin, problem_of, known_of};
ghost use Rattle.gi_cdcl.specs.Marks.{HasFalse};
ghost use Rattle.gi_cdcl.specs.Values.{IsPassed};
ghost use Rattle.gi_cdcl.specs.Assumed.{DecidesAssumptionsFirst};
ghost use Rattle.gi_lit.specs.Ends.{IsFailing};
ghost use Rattle.gi_cdcl.specs.Ends.{IsTaught};
ghost use Rattle.gi_cdcl.specs.Searching.{AreKnown};
ghost use Rattle.gi_cdcl.specs.Invariant.{AttachedExactly, IsReady, SearchInvariant, HasLearnt, HasStored};
ghost use Rattle.gi_cdcl.specs.Sound.{stored};
ghost use Rattle.gi_cdcl.specs.Steps.{AddsNews, FindsEmpty, LeadsTo};
ghost use Rattle.gi_cdcl.specs.declared.step.StepResult.TheVariants.{Learnt};

use crate::analyze::analyze;
use crate::decide::unassign;
use crate::empty::has_empty;
use crate::search_state::SearchState;
use crate::step::StepResult;
use gi_lit::{Clause, Lits};
use gi_prop::{Prop, Trail};
use gi_store::{Key, Store};
use std::alloc::AllocError;

/// Stores a clause that a conflict teaches, as the last of the news, and attaches it. After an
/// error it may stand in the store all the same, and then it is the last of the news.
fn add_clause(
    prop: &mut Prop,
    trail: &Trail,
    store: &mut Store,
    clause: Clause,
    news: &mut Vec<Clause>,
) -> Result<(), AllocError>
    requires within { IsWithin store.old.vars clause }
    requires tied { AttachedExactly prop.old store.old trail.now }
    requires taught { IsTaught store.old clause }
    requires fresh { IsFresh (problem_of store.old) (known_of store.old) clause
        × IsDerived (problem_of store.old) (known_of store.old) clause }
    ensures learnt { (s : StoreView) → HasLearnt s store.old news.old.items
        → HasLearnt s store.new news.new.items }
    ensures few { length news.new.items ≤ length news.old.items + 1 }
    ensures stored { OnOk result (HasStored store.old store.new clause) }
    ensures news { OnOk result (news.new.items ≡ news.old.items ++ clause ∷ []) }
    ensures tied { OnOk result (AttachedExactly prop.new store.new trail.now) }
{
    news.reserve(1)?;
    let key = store.learn(clause.as_slice())?;
    news.push_reserved(clause);
    let _vars = store.vars();
    prop.attach(store, trail, key)
}

/// How many of the variables that were passed lie before the least one that lost its value.
fn still_passed(passed: u32, least: u32) -> u32
    ensures { (result ≤ passed) × (result ≤ least - 1) }
{
    passed.min(least.saturating_sub(1))
}

/// How many of the assumptions that were passed are known to be true still where so many levels are
/// left: one for each.
fn still_true(passed: usize, level: u32) -> usize
    ensures { result ≤ level }
{
    passed.min(level as usize)
}

/// Learns what a conflict above level 0 teaches, and goes back to the least level at which all its
/// literals but one are false.
fn learn(
    state: &mut SearchState,
    store: &mut Store,
    conflict: Key,
    news: &mut Vec<Clause>,
) -> Result<(), AllocError>
    requires known { AreKnown store.old }
    requires tied { AttachedExactly state.old.prop store.old state.old.trail }
    requires ready { IsReady store.old state.old.trail }
    requires deep { 0 < length state.old.trail.level_starts }
    requires conflict { HasFalse store.old state.old.trail.lits conflict }
    ensures learnt { (s : StoreView) → HasLearnt s store.old news.old.items
        → HasLearnt s store.new news.new.items }
    ensures few { length news.new.items ≤ length news.old.items + 1 }
    ensures adds { OnOk result (AddsNews news.old.items news.new.items Learnt) }
    ensures going { OnOk result
        ((assumed : List ℕ) → DecidesAssumptionsFirst assumed state.old.trail
        → IsWithin store.old.vars assumed
        → IsPassed store.old state.old.trail.lits state.old.vars_passed
        → SearchInvariant state.new.prop store.new state.new.trail assumed state.new.vars_passed
        state.new.assumed_passed) }
    ensures vars { OnOk result (state.new.trail.vars ≡ state.old.trail.vars) }
{
    let _vars = store.vars();
    let _level = state.trail.level();
    let learnt = analyze(state.alloc, store, &state.trail, &mut state.seen, conflict)?;
    state.order.bump(learnt.clause.as_slice())?;
    let start = state.trail.start_of(learnt.level);
    let least = unassign(&mut state.order, &state.trail, start);
    state.trail.cancel_to(learnt.level);
    state.vars_passed = still_passed(state.vars_passed, least);
    state.assumed_passed = still_true(state.assumed_passed, learnt.level);
    add_clause(&mut state.prop, &state.trail, store, learnt.clause, news)?;
    Ok(())
}

/// A conflict where nothing was decided: the clauses fail. The empty clause is learnt, but where a
/// clause is empty already.
fn refute(
    state: &mut SearchState,
    store: &mut Store,
    news: &mut Vec<Clause>,
    conflict: Key,
) -> Result<StepResult, AllocError>
    requires known { AreKnown store.old }
    requires tied { AttachedExactly state.old.prop store.old state.old.trail }
    requires ready { IsReady store.old state.old.trail }
    requires root { state.old.trail.level_starts ≡ [] }
    requires conflict { HasFalse store.old state.old.trail.lits conflict }
    ensures learnt { (s : StoreView) → HasLearnt s store.old news.old.items
        → HasLearnt s store.new news.new.items }
    ensures few { length news.new.items ≤ length news.old.items + 1 }
    ensures adds { IfOk result (AddsNews news.old.items news.new.items) }
    ensures root { IfOk result
        (λ step. Contains (stored store.old) [] → FindsEmpty news.old.items news.new.items step) }
    ensures leads { IfOk result
        (λ step. (assumed : List ℕ)
        → LeadsTo state.old.trail state.new.prop store.new state.new.trail assumed
        state.new.vars_passed state.new.assumed_passed step) }
{
    let _vars = store.vars();
    let _level = state.trail.level();
    if has_empty(store) {
        return Ok(StepResult::Refuted);
    }
    let empty = Lits::new(state.alloc);
    add_clause(&mut state.prop, &state.trail, store, empty, news)?;
    Ok(StepResult::Refuted)
}

/// Faces a conflict.
pub(crate) fn handle_conflict(
    state: &mut SearchState,
    store: &mut Store,
    conflict: Key,
    news: &mut Vec<Clause>,
) -> Result<StepResult, AllocError>
    requires known { AreKnown store.old }
    requires tied { AttachedExactly state.old.prop store.old state.old.trail }
    requires ready { IsReady store.old state.old.trail }
    requires conflict { HasFalse store.old state.old.trail.lits conflict }
    ensures learnt { (s : StoreView) → HasLearnt s store.old news.old.items
        → HasLearnt s store.new news.new.items }
    ensures few { length news.new.items ≤ length news.old.items + 1 }
    ensures adds { IfOk result (AddsNews news.old.items news.new.items) }
    ensures root { IfOk result
        (λ step. Contains (stored store.old) [] → FindsEmpty news.old.items news.new.items step) }
    ensures leads { IfOk result
        (λ step. (assumed : List ℕ) → DecidesAssumptionsFirst assumed state.old.trail
        → IsWithin store.old.vars assumed
        → IsPassed store.old state.old.trail.lits state.old.vars_passed
        → LeadsTo state.old.trail state.new.prop store.new state.new.trail assumed
        state.new.vars_passed state.new.assumed_passed step) }
{
    if state.trail.level() == 0 {
        return refute(state, store, news, conflict);
    }
    learn(state, store, conflict, news)?;
    Ok(StepResult::Learnt)
}
