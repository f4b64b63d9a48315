ghost use Rattle.std.specs.Prelude.{◌≡◌, ℕ, ◌-◌, ◌/◌, ◌<◌, ◌≤◌, List, length, All, Contains, IfOk, slice_index, slice_index_or, None};
ghost use Rattle.gi_lit.specs.Literals.{opposite};
ghost use Rattle.gi_lit.specs.Closure.{IsFalsified};
ghost use Rattle.gi_store.specs.StoreView.{Holds, IsWithin, IsLive};
ghost use Rattle.gi_prop.specs.TrailView.{IsLevelAt, IsTrail};
ghost use Rattle.gi_cdcl.specs.Sound.{stored, IsTrailSound, IsLeveled};
ghost use Rattle.gi_cdcl.specs.Uip.{IsUip, IsJump};
ghost use Rattle.gi_cdcl.specs.Marks.{Marks, IsCut, IsLastOf, IsBuiltOf, HasFalse};
ghost use Rattle.gi_cdcl.specs.Touched.{IsBlank};

use crate::seen::Seen;
use gi_lit::{Lit, Lits};
use gi_prop::Trail;
use gi_store::{Key, Store};
use std::alloc::{AllocError, Global};

/// The key of the clause that forced the literal at a place, none for a decision.
pub(crate) fn reason_at(trail: &Trail, place: usize) -> Option<Key>
    requires { place < length trail.now.lits }
    ensures { result ≡ slice_index_or trail.now.reasons place None }
{
    let l = trail.lits()[place];
    trail.reason(l.var())
}

/// The literal at a place.
fn lit_at(lits: &[Lit], place: usize) -> Lit
    requires { place < length lits.now }
    ensures { result ≡ slice_index lits.now place }
{
    lits[place]
}

/// The level of a place.
fn level_at(trail: &Trail, place: usize) -> u32
    requires { place < length trail.now.lits }
    ensures { IsLevelAt trail.now.level_starts place result }
{
    let l = lit_at(trail.lits(), place);
    match trail.level_of(l.var()) {
        Some(level) => level,
        None => unreachable!(),
    }
}

/// Marks the places of the clause's variables before `end`, and counts the new marks from `start`
/// on.
pub(crate) fn mark_seen(
    clause: &[Lit],
    trail: &Trail,
    seen: &mut Seen,
    start: usize,
    end: usize,
) -> usize
    requires within { IsWithin trail.now.vars clause.now }
    requires trail { IsTrail trail.now }
    requires len { length trail.now.lits ≤ length seen.old }
    requires order { start ≤ end }
    ensures { Marks trail.now.lits clause.now start end seen.old seen.new result }
{
    let mut more = 0;
    for l in clause {
        if let Some(at) = trail.place_of(l.var()) {
            if at < end && !seen.has(at) {
                seen.set(at);
                if at >= start {
                    more += 1;
                }
            }
        }
    }
    more
}

/// Goes back over the trail from a clause that is false, to its first unique implication point.
fn resolve(store: &Store, trail: &Trail, conflict: &[Lit], seen: &mut Seen) -> usize
    requires within { All (IsWithin trail.now.vars) (stored store.now) }
    requires sound { IsTrailSound store.now trail.now }
    requires leveled { IsLeveled store.now trail.now }
    requires deep { 0 < length trail.now.level_starts }
    requires stands { Contains (stored store.now) conflict.now }
    requires falsified { IsFalsified trail.now.lits conflict.now }
    requires blank { IsBlank seen.old }
    requires room { length trail.now.lits ≤ length seen.old }
    ensures { IsCut store.now trail.now conflict.now
        (slice_index trail.now.level_starts (length trail.now.level_starts - 1)) seen.new result }
{
    let start = trail.start_of(trail.level() - 1);
    let mut at = trail.lits().len();
    let mut open = mark_seen(conflict, trail, seen, start, at);
    while at > start {
        at -= 1;
        if seen.has(at) {
            if open == 1 {
                return at;
            }
            open -= 1;
            match reason_at(trail, at) {
                Some(reason) => open += mark_seen(store.clause(reason), trail, seen, start, at),
                None => unreachable!(),
            }
        }
    }
    unreachable!()
}

/// What a conflict teaches: a clause, and the level to go back to.
#[derive(Drop)]
pub(crate) struct Learnt {
    pub clause: Lits,
    pub level: u32,
}

fn negation(lits: &[Lit], place: usize) -> Lit
    requires { place < length lits.now }
    ensures { result ≡ opposite (slice_index lits.now place) }
{
    lits[place].not()
}

/// The greater of two places, where the first may be missing.
fn last_of(last: Option<usize>, place: usize) -> usize
    ensures { IsLastOf last place result }
{
    match last {
        None => place,
        Some(p) => { if p < place { place } else { p } }
    }
}

/// The clause of the literals at marked places, that at `top` first, and the last marked place
/// before `start`.
fn build(
    alloc: Global,
    lits: &[Lit],
    touched: &[u32],
    start: usize,
    top: usize,
) -> Result<(Lits, Option<usize>), AllocError>
    requires top { top < length lits.now }
    requires start { start ≤ top }
    ensures { IfOk result (λ r. IsBuiltOf lits.now touched.now top start r.0 r.1) }
{
    let mut clause = Vec::with_capacity(alloc, touched.len())?;
    clause.push(negation(lits, top))?;
    let mut last = None;
    for place in touched {
        let place = *place as usize;
        if place < start {
            clause.push(negation(lits, place))?;
            last = Some(last_of(last, place));
        }
    }
    Ok((Lits::from_vec(clause), last))
}

/// The clause that a conflict above level 0 teaches: its first unique implication point.
pub(crate) fn analyze(
    alloc: Global,
    store: &Store,
    trail: &Trail,
    seen: &mut Seen,
    conflict: Key,
) -> Result<Learnt, AllocError>
    requires within { All (IsWithin trail.now.vars) (stored store.now) }
    requires sound { IsTrailSound store.now trail.now }
    requires leveled { IsLeveled store.now trail.now }
    requires deep { 0 < length trail.now.level_starts }
    requires conflict { HasFalse store.now trail.now.lits conflict }
    requires live { IsLive store.now conflict }
    ensures uip { IfOk result
        (λ l. (c : List ℕ) → Holds store.now conflict c
        → IsUip store.now trail.now c
        (slice_index trail.now.level_starts (length trail.now.level_starts - 1)) l.clause) }
    ensures jump { IfOk result
        (λ l. IsJump trail.now l.clause
        (slice_index trail.now.level_starts (length trail.now.level_starts - 1)) l.level) }
{
    let start = trail.start_of(trail.level() - 1);
    seen.start_over(trail.vars())?;
    let falsified = store.clause(conflict);
    let top = resolve(store, trail, falsified, seen);
    let (clause, last) = build(alloc, trail.lits(), seen.touched(), start, top)?;
    let level = match last {
        None => 0,
        Some(place) => level_at(trail, place),
    };
    Ok(Learnt { clause, level })
}
