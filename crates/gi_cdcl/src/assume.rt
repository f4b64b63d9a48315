ghost use Rattle.std.specs.Prelude.{◌≡◌, ℕ, ◌/◌, ◌<◌, ◌≤◌, List, length, take, All, Contains, IfOk, IsTrue, slice_index, slice_index_or, false};
ghost use Rattle.gi_lit.specs.Literals.{opposite};
ghost use Rattle.gi_lit.specs.Lists.{IsSublist};
ghost use Rattle.gi_lit.specs.Closure.{Conflicts};
ghost use Rattle.gi_store.specs.StoreView.{IsWithin};
ghost use Rattle.gi_prop.specs.TrailView.{IsTrail};
ghost use Rattle.gi_cdcl.specs.Sound.{stored, IsTrailSound};
ghost use Rattle.gi_cdcl.specs.Assumed.{IsNext, IsPlaced, DecidesAssumptionsFirst, LeadsFrom};
ghost use Rattle.gi_cdcl.specs.Touched.{IsBlank};

use crate::analyze::{mark_seen, reason_at};
use crate::seen::Seen;
use gi_lit::{Lit, Lits};
use gi_prop::Trail;
use gi_store::Store;
use std::alloc::{AllocError, Global};

/// What comes next under assumptions.
pub(crate) enum Next {
    /// All of them are true.
    AllTrue,
    /// One that has no value, the first that isn't true.
    Free(Lit),
    /// One that is false, the first that isn't true.
    Failed(Lit),
}

/// The first assumption that isn't true, where the first `passed` of them are known to be. Counts
/// those that are.
pub(crate) fn next_assumption(trail: &Trail, assumed: &[Lit], passed: &mut usize) -> Next
    requires within { IsWithin trail.now.vars assumed.now }
    requires passed { All (Contains trail.now.lits) (take passed.old assumed.now) }
    ensures next { IsNext trail.now.lits assumed.now result }
    ensures place { IsPlaced assumed.now passed.new result }
    ensures passed { All (Contains trail.now.lits) (take passed.new assumed.now) }
{
    while *passed < assumed.len() {
        let l = assumed[*passed];
        match trail.value(l) {
            Some(true) => *passed += 1,
            Some(false) => return Next::Failed(l),
            None => return Next::Free(l),
        }
    }
    Next::AllTrue
}

/// Marks what a literal that is false goes back to.
fn trace(store: &Store, trail: &Trail, failed: Lit, seen: &mut Seen)
    requires within { All (IsWithin trail.now.vars) (stored store.now) }
    requires sound { IsTrailSound store.now trail.now }
    requires var { failed / 2 ≤ trail.now.vars }
    requires failed { Contains trail.now.lits (opposite failed) }
    requires blank { IsBlank seen.old }
    requires room { length trail.now.lits ≤ length seen.old }
    ensures len { length trail.now.lits ≤ length seen.new }
    ensures leads { LeadsFrom store.now trail.now failed seen.new 0 }
{
    let mut at = trail.lits().len();
    if let Some(place) = trail.place_of(failed.var()) {
        seen.set(place);
    }
    while at > 0 {
        at -= 1;
        if seen.has(at) {
            if let Some(reason) = reason_at(trail, at) {
                let _more = mark_seen(store.clause(reason), trail, seen, 0, at);
            }
        }
    }
}

/// Whether a literal failed, or its variable's place is marked.
fn is_wanted(trail: &Trail, seen: &Seen, l: Lit, failed: Lit) -> bool
    requires within { l / 2 ≤ trail.now.vars }
    requires len { length trail.now.lits ≤ length seen.now }
    requires trail { IsTrail trail.now }
    ensures failed { l ≡ failed → IsTrue result }
    ensures marked { (k : ℕ) → k < length trail.now.lits → slice_index trail.now.lits k ≡ l
        → IsTrue (slice_index_or seen.now k false) → IsTrue result }
{
    if l == failed {
        return true;
    }
    match trail.place_of(l.var()) {
        Some(place) => seen.has(place),
        None => false,
    }
}

/// The assumptions at marked places, and the one that failed.
fn failing(
    alloc: Global,
    trail: &Trail,
    assumed: &[Lit],
    failed: Lit,
    seen: &Seen,
) -> Result<Lits, AllocError>
    requires within { IsWithin trail.now.vars assumed.now }
    requires len { length trail.now.lits ≤ length seen.now }
    requires trail { IsTrail trail.now }
    ensures sublist { IfOk result (λ w. IsSublist w assumed.now) }
    ensures failed { IfOk result (λ w. Contains assumed.now failed → Contains w failed) }
    ensures marked { IfOk result
        (λ w. (k : ℕ) → k < length trail.now.lits → IsTrue (slice_index_or seen.now k false)
        → Contains assumed.now (slice_index trail.now.lits k)
        → Contains w (slice_index trail.now.lits k)) }
{
    let mut found = Lits::new(alloc);
    for l in assumed {
        let l = *l;
        if is_wanted(trail, seen, l, failed) {
            found.push(l)?;
        }
    }
    Ok(found)
}

/// The assumptions under which the clauses conflict, where one is false.
pub(crate) fn analyze_final(
    alloc: Global,
    store: &Store,
    trail: &Trail,
    seen: &mut Seen,
    assumed: &[Lit],
    failed: Lit,
) -> Result<Lits, AllocError>
    requires within { All (IsWithin trail.now.vars) (stored store.now) }
    requires sound { IsTrailSound store.now trail.now }
    requires led { DecidesAssumptionsFirst assumed.now trail.now }
    requires vars { IsWithin trail.now.vars assumed.now }
    requires assumed { Contains assumed.now failed }
    requires failed { Contains trail.now.lits (opposite failed) }
    ensures sublist { IfOk result (λ w. IsSublist w assumed.now) }
    ensures conflicts { IfOk result (λ w. Conflicts (stored store.now) w) }
{
    seen.start_over(trail.lits().len())?;
    trace(store, trail, failed, seen);
    let found = failing(alloc, trail, assumed, failed, seen)?;
    Ok(found)
}
