ghost use Rattle.std.specs.Prelude.{List, ◌≡◌, ◌≤◌, ◌<◌, ◌/◌, ℕ, false, true, length, replicate, slice_index_or, Contains, IfOk, IsTrue};
ghost use Rattle.gi_lit.specs.Lists.{IsSublist};
ghost use Rattle.gi_lit.specs.Closure.{IsFalsified};
ghost use Rattle.gi_store.specs.StoreView.{IsWithin, problem_of};
ghost use Rattle.gi_prop.specs.TrailView.{StandsAt};
ghost use Rattle.gi_scopes.specs.Under.{base_of, IsImpliedAt, IsReached, AreReached};
ghost use Rattle.gi_scopes.specs.Traced.{AreSeen, KeepsMarks, IsResolved, LeadsToFalse, IsPicked};

use gi_lit::{Lit, Lits};
use gi_prop::Trail;
use gi_store::Store;
use std::alloc::{AllocError, Global};

/// Marks the places of the variables of literals.
pub(crate) fn mark(seen: &mut [bool], trail: &Trail, lits: &[Lit])
    requires within { IsWithin trail.now.vars lits.now }
    requires count { length seen.old ≡ length trail.now.lits }
    ensures kept { KeepsMarks seen.old seen.new }
    ensures seen { AreSeen trail.now.lits lits.now seen.new }
{
    let _level = trail.level();
    for l in lits {
        if let Some(place) = trail.place_of(l.var()) {
            seen[place] = true;
        }
    }
}

/// Marks the places of the clause that forced the literal at a place, if that is marked and no
/// assumption.
fn resolve(seen: &mut [bool], store: &Store, trail: &Trail, at: usize)
    requires vars { store.now.vars ≤ trail.now.vars }
    requires count { length seen.old ≡ length trail.now.lits }
    requires at { at < length trail.now.lits }
    requires reached { (given : List ℕ) × IsReached (base_of store.now) given trail.now at }
    ensures kept { KeepsMarks seen.old seen.new }
    ensures resolved { slice_index_or seen.old at false ≡ true
        → IsImpliedAt (base_of store.now) trail.now at
        → IsResolved (problem_of (base_of store.now)) trail.now.lits at seen.new }
{
    let _vars = store.vars();
    if seen[at] {
        match trail.reason(trail.lits()[at].var()) {
            Some(key) => mark(seen, trail, store.clause(key)),
            None => {}
        }
    }
}

/// Marks what makes the literals of a clause false.
pub(crate) fn trace(seen: &mut [bool], store: &Store, trail: &Trail, clause: &[Lit])
    requires vars { store.now.vars ≤ trail.now.vars }
    requires within { IsWithin trail.now.vars clause.now }
    requires count { length seen.old ≡ length trail.now.lits }
    requires falsified { IsFalsified trail.now.lits clause.now }
    requires reached { (given : List ℕ)
        × AreReached (base_of store.now) given trail.now (length trail.now.lits) }
    ensures count { length seen.new ≡ length seen.old }
    ensures leads { (given : List ℕ)
        → AreReached (base_of store.now) given trail.now (length trail.now.lits)
        → LeadsToFalse (problem_of (base_of store.now)) given trail.now.lits seen.new clause.now 0 }
    ensures seen { AreSeen trail.now.lits clause.now seen.new }
{
    mark(seen, trail, clause);
    let mut at = trail.lits().len();
    while at > 0 {
        at -= 1;
        resolve(seen, store, trail, at);
    }
}

/// Whether the place of the literal's variable is marked.
fn is_seen(trail: &Trail, seen: &[bool], l: Lit) -> bool
    requires var { l / 2 ≤ trail.now.vars }
    requires count { length seen.now ≡ length trail.now.lits }
    ensures { (q : ℕ) → StandsAt trail.now.lits (l / 2) q
        → result ≡ slice_index_or seen.now q false }
{
    let _level = trail.level();
    match trail.place_of(l.var()) {
        Some(place) => seen[place],
        None => false,
    }
}

/// The assumptions whose variables' places are marked, in order.
pub(crate) fn pick(
    alloc: Global,
    trail: &Trail,
    seen: &[bool],
    given: &[Lit],
) -> Result<Lits, AllocError>
    requires within { IsWithin trail.now.vars given.now }
    requires count { length seen.now ≡ length trail.now.lits }
    ensures some { IfOk result (λ w. IsSublist w given.now) }
    ensures picked { IfOk result (λ w. IsPicked trail.now.lits seen.now given.now w) }
{
    let mut picked = Lits::new(alloc);
    for l in given {
        if is_seen(trail, seen, *l) {
            picked.push(*l)?;
        }
    }
    Ok(picked)
}
