ghost use Rattle.std.specs.Prelude.{◌≡◌, ◌≤◌, ◌<◌, ◌+◌, ◌-◌, ◌/◌, ◌++◌, ℕ, length, [], All, Contains, IfOk, OnOk};
ghost use Rattle.gi_lit.specs.Lists.{IsSublist};
ghost use Rattle.gi_lit.specs.Closure.{Conflicts, IsFalsified};
ghost use Rattle.gi_lit.specs.Problem.{full};
ghost use Rattle.gi_store.specs.StoreView.{IsWithin, problem_of};
ghost use Rattle.gi_model.specs.State.{scope_assumed, scope_listed};
ghost use Rattle.gi_scopes.specs.Under.{base_of, AreReached};
ghost use Rattle.gi_scopes.specs.Built.{IsFor, IsStuck, kept_lits};
ghost use Rattle.gi_scopes.specs.Traced.{Refutes};
ghost use Rattle.gi_scopes.specs.Listing.{AreNoted, Closes, Builds, Counts, GrowsLittle};

use crate::clash::Clash;
use crate::closed_trail::{list, start_of};
use crate::kept::{Kept, Reach, climb, listed_above};
use crate::level::Level;
use crate::lists::blank;
use crate::outcome::Outcome;
use crate::steps::Steps;
use crate::trace::{pick, trace};
use gi_lit::{Lit, Lits};
use gi_prop::Trail;
use gi_store::Store;
use std::alloc::{AllocError, Global};
use std::sync::ledger::Ledger;

/// Assumptions from which it follows that the literals of a clause are false, with those of the
/// clause among them.
fn culprits(
    alloc: Global,
    store: &Store,
    trail: &Trail,
    given: &[Lit],
    clause: &[Lit],
) -> Result<Lits, AllocError>
    requires vars { store.now.vars ≤ trail.now.vars }
    requires within { IsWithin trail.now.vars given.now }
    requires clause { IsWithin trail.now.vars clause.now }
    requires reached { AreReached (base_of store.now) given.now trail.now (length trail.now.lits) }
    requires falsified { IsFalsified trail.now.lits clause.now }
    ensures some { IfOk result (λ w. IsSublist w given.now) }
    ensures refutes { IfOk result
        (λ w. Refutes (problem_of (base_of store.now)) w clause.now
        × ((m : ℕ) → Contains clause.now m → Contains given.now m → Contains w m)) }
{
    let mut seen = blank(alloc, trail.lits().len())?;
    trace(seen.as_mut_slice(), store, trail, clause);
    pick(alloc, trail, seen.as_slice(), given)
}

/// Assumptions from which a conflict follows.
fn failing(
    alloc: Global,
    store: &Store,
    trail: &Trail,
    given: &[Lit],
    clash: Clash,
) -> Result<Lits, AllocError>
    requires within { IsWithin store.now.vars given.now }
    requires stuck { IsStuck store.now given.now trail.now clash }
    ensures some { IfOk result (λ w. IsSublist w given.now) }
    ensures conflicts { IfOk result (λ w. Conflicts (full (problem_of store.now)) w) }
{
    let _vars = store.vars();
    match clash {
        Clash::Opposite(l) => culprits(alloc, store, trail, given, &[l]),
        Clash::Clause(key) => culprits(alloc, store, trail, given, store.clause(key)),
    }
}

/// Counts the literals of a trail from a place on.
fn count<L: Ledger>(steps: &mut Steps<L>, from: usize, trail: &Trail)
    ensures { steps.new ≡ steps.old + (length trail.now.lits - from) }
{
    for _at in from..trail.lits().len() {
        steps.tick();
    }
}

/// How many literals are true.
fn length_of(kept: &Option<Kept>) -> usize
    ensures { result ≡ length (kept_lits kept.now) }
{
    match kept {
        None => 0,
        Some(kept) => kept.trail.lits().len(),
    }
}

/// What unit closure by the clauses of the problem finds under the assumptions of the scopes and
/// these: what it implies beyond what scopes list, or assumptions that fail. `given` has them all.
pub(crate) fn find<L: Ledger>(
    alloc: Global,
    store: &Store,
    kept: Option<Kept>,
    noted: &mut Vec<bool>,
    levels: &[Level],
    assumed: &[Lit],
    given: &[Lit],
    steps: &mut Steps<L>,
) -> Result<Outcome, AllocError>
    requires none { AreNoted [] noted.old.items }
    requires depth { length levels.now < 4294967295 }
    requires open { IsWithin store.now.vars (scope_assumed levels.now) }
    requires assumed { IsWithin store.now.vars assumed.now }
    requires given { given.now ≡ scope_assumed levels.now ++ assumed.now }
    requires kept { IsFor kept levels.now (base_of store.now) }
    ensures closes { IfOk result
        (Closes (problem_of store.now) given.now (scope_listed levels.now)) }
    ensures builds { IfOk result (Builds store.now levels.now assumed.now) }
    ensures counts { IfOk result (Counts (length (kept_lits kept)) steps.old steps.new) }
    ensures none { OnOk result (AreNoted [] noted.new.items) }
    ensures little { IfOk result
        (GrowsLittle (problem_of store.now) levels.now assumed.now (kept_lits kept)) }
{
    let _vars = store.vars();
    let from = length_of(&kept);
    let above = listed_above(&kept, levels);
    match climb(alloc, store, kept, levels, assumed)? {
        Reach::Stuck(kept, clash) => {
            count(steps, from, &kept.trail);
            let w = failing(alloc, store, &kept.trail, given, clash)?;
            Ok(Outcome::Failing(w))
        }
        Reach::Closed(kept) => {
            let _lits = kept.trail.lits();
            count(steps, from, &kept.trail);
            let start = start_of(store, &kept, above, from, levels);
            let outcome = list(alloc, store, kept, start, noted, levels, assumed, given)?;
            Ok(outcome)
        }
    }
}
