ghost use Rattle.std.specs.Prelude.{◌≡◌, ◌≢◌, ◌<◌, ◌≤◌, ◌/◌, ◌*◌, ◌+◌, ℕ, [], ◌∷◌, ◌++◌, false, length, take, slice_index, slice_index_or, All, Contains, IfOk, OnOk, IfSome, IfNone, IsTrue, ◌↔◌};
ghost use Rattle.gi_lit.specs.Literals.{opposite};
ghost use Rattle.gi_lit.specs.Problem.{IsProblemVar};
ghost use Rattle.gi_store.specs.StoreView.{problem_of};
ghost use Rattle.gi_model.specs.State.{scope_listed};
ghost use Rattle.gi_scopes.specs.Open.{IsReasoned};
ghost use Rattle.gi_scopes.specs.Under.{base_of, IsImpliedAt, AreReached};
ghost use Rattle.gi_scopes.specs.Listing.{AreOthers, AreNoted, Notes, MarksPlaces, ArePlaces, IsPlaceOf, AreBehind, AreKnown, IsListing};

use crate::level::Level;
use crate::lists::blank;
use crate::outcome::Implied;
use crate::short::Short;
use gi_lit::Lit;
use gi_prop::Trail;
use gi_store::Store;
use std::alloc::{AllocError, Global};

/// Notes the opposite of a literal, unless it is m or was noted. The codes of what is noted are
/// marked.
fn note(reasons: &mut Short, noted: &mut [bool], l: Lit, m: Lit) -> Result<(), AllocError>
    requires code { opposite l < length noted.old }
    requires marks { AreNoted reasons.old noted.old }
    ensures notes { OnOk result (Notes m l reasons.old reasons.new) }
    ensures marks { OnOk result (AreNoted reasons.new noted.new) }
    ensures count { length noted.new ≡ length noted.old }
{
    let opposite = l.not();
    let code = opposite.code() as usize;
    if l == m || noted[code] {
        return Ok(());
    }
    reasons.push(opposite)?;
    noted[code] = true;
    Ok(())
}

/// Takes the marks of these codes away.
fn unmark(noted: &mut [bool], codes: &[u32])
    requires { AreNoted codes.now noted.old }
    ensures { AreNoted [] noted.new }
{
    for code in codes {
        let code = *code as usize;
        if code < noted.len() {
            noted[code] = false;
        }
    }
}

/// The opposites of a clause's literals other than m, each once. There are no marks before and
/// after.
fn others(alloc: Global, noted: &mut [bool], clause: &[Lit], m: Lit) -> Result<Short, AllocError>
    requires codes { All (λ l. opposite l < length noted.old) clause.now }
    requires none { AreNoted [] noted.old }
    ensures others { IfOk result (λ rs. AreOthers clause.now m rs) }
    ensures none { OnOk result (AreNoted [] noted.new) }
    ensures count { length noted.new ≡ length noted.old }
{
    let mut reasons = Short::new(alloc);
    for l in clause {
        note(&mut reasons, noted, *l, m)?;
    }
    unmark(noted, reasons.codes());
    Ok(reasons)
}

/// The reasons of the literal at a place. There are no marks before and after.
fn reasons_at(
    alloc: Global,
    noted: &mut [bool],
    store: &Store,
    trail: &Trail,
    at: usize,
) -> Result<Short, AllocError>
    requires at { at < length trail.now.lits }
    requires implied { IsImpliedAt (base_of store.now) trail.now at }
    requires count { length noted.old ≡ 2 * store.now.vars + 2 }
    requires none { AreNoted [] noted.old }
    ensures none { OnOk result (AreNoted [] noted.new) }
    ensures count { length noted.new ≡ length noted.old }
    ensures reasons { IfOk result
        (λ rs. IsReasoned (problem_of store.now) (slice_index trail.now.lits at) rs) }
    ensures before { IfOk result (λ rs. All (Contains (take at trail.now.lits)) rs) }
{
    let _vars = store.vars();
    let l = trail.lits()[at];
    match trail.reason(l.var()) {
        Some(key) => others(alloc, noted, store.clause(key), l),
        None => unreachable!(),
    }
}

/// Marks the literal's place, if it has one from this one on.
fn mark_place(marks: &mut [bool], trail: &Trail, from: usize, l: Lit)
    requires { length trail.now.lits ≡ from + length marks.old }
    ensures { MarksPlaces trail.now.lits from (l ∷ []) marks.old marks.new }
{
    let Some(place) = place_of(trail, l) else {
        return;
    };
    if place >= from {
        marks[place - from] = true;
    }
}

/// Marks the places, from one on, of those literals that are there.
fn mark_places(marks: &mut [bool], trail: &Trail, from: usize, lits: &[Lit])
    requires { length trail.now.lits ≡ from + length marks.old }
    ensures { MarksPlaces trail.now.lits from lits.now marks.old marks.new }
{
    for l in lits {
        mark_place(marks, trail, from, *l);
    }
}

/// Where the literal stands in the trail.
fn place_of(trail: &Trail, l: Lit) -> Option<usize>
    ensures none { IfNone result (¬ Contains trail.now.lits l) }
    ensures place { IfSome result (λ k. IsPlaceOf trail.now.lits l k) }
{
    let _level = trail.level();
    if l.var().index() as usize > trail.vars() {
        return None;
    }
    let place = trail.place_of(l.var())?;
    if trail.lits()[place] == l {
        Some(place)
    } else {
        None
    }
}

/// Whether each of the literals is true.
pub(crate) fn are_there(trail: &Trail, lits: &[Lit]) -> bool
    ensures { IsTrue result → All (Contains trail.now.lits) lits.now }
{
    for l in lits {
        match place_of(trail, *l) {
            Some(_) => {}
            None => return false,
        }
    }
    true
}

/// Marks, by places from one on, of the literals that stand in a list or that these scopes list.
fn known_places(
    alloc: Global,
    trail: &Trail,
    from: usize,
    given: &[Lit],
    levels: &[Level],
) -> Result<Vec<bool>, AllocError>
    requires { from ≤ length trail.now.lits }
    ensures { IfOk result (λ ms. ArePlaces trail.now.lits from
        (given.now ++ scope_listed levels.now) ms.items) }
{
    let mut marks = blank(alloc, trail.lits().len() - from)?;
    for level in levels {
        mark_places(marks.as_mut_slice(), trail, from, level.listed());
    }
    mark_places(marks.as_mut_slice(), trail, from, given);
    Ok(marks)
}

/// Marks, by places from one on, of the literals that are assumed or that a scope lists.
fn marks_from(
    alloc: Global,
    trail: &Trail,
    from: usize,
    assumed: &[Lit],
    given: &[Lit],
    levels: &[Level],
) -> Result<Vec<bool>, AllocError>
    requires from { from ≤ length trail.now.lits }
    requires behind { 0 < from
        → AreBehind trail.now.lits from assumed.now (given.now ++ scope_listed levels.now) }
    ensures { IfOk result (λ ms. ArePlaces trail.now.lits from
        (given.now ++ scope_listed levels.now) ms.items) }
{
    if from == 0 {
        return known_places(alloc, trail, from, given, levels);
    }
    known_places(alloc, trail, from, assumed, &[])
}

/// Whether the literal is of a variable of the problem and its place isn't marked.
fn is_new(store: &Store, marks: &[bool], place: usize, l: Lit) -> bool
    requires { place < length marks.now }
    ensures { IsTrue result ↔ (IsProblemVar (problem_of store.now) (l / 2)
        × (slice_index_or marks.now place false ≡ false)) }
{
    store.is_problem_var(l.var()) && !marks[place]
}

/// Makes a table without marks as long as this.
fn fit(alloc: Global, noted: &mut Vec<bool>, n: usize) -> Result<(), AllocError>
    requires { AreNoted [] noted.old.items }
    ensures none { OnOk result (AreNoted [] noted.new.items) }
    ensures count { OnOk result (length noted.new.items ≡ n) }
{
    if noted.len() == n {
        return Ok(());
    }
    let table = blank(alloc, n)?;
    *noted = table;
    Ok(())
}

/// The literals of problem variables that are no assumption and that no scope lists yet, each with
/// its reasons. Before the first place there are none; where it isn't the first of all, the last
/// scope's assumptions alone may stand behind it. There are no marks in `noted` before and after.
pub(crate) fn implied(
    alloc: Global,
    store: &Store,
    trail: &Trail,
    noted: &mut Vec<bool>,
    from: usize,
    assumed: &[Lit],
    given: &[Lit],
    levels: &[Level],
) -> Result<Implied, AllocError>
    requires none { AreNoted [] noted.old.items }
    requires reached { AreReached (base_of store.now) given.now trail.now (length trail.now.lits) }
    requires from { from ≤ length trail.now.lits }
    requires covered { AreKnown (problem_of store.now) (given.now ++ scope_listed levels.now)
        (take from trail.now.lits) }
    requires behind { 0 < from
        → AreBehind trail.now.lits from assumed.now (given.now ++ scope_listed levels.now) }
    ensures listing { IfOk result
        (λ i. IsListing (problem_of store.now) given.now (scope_listed levels.now) trail.now.lits
        i.lits i.reasons.items) }
    ensures none { OnOk result (AreNoted [] noted.new.items) }
{
    let marks = marks_from(alloc, trail, from, assumed, given, levels)?;
    fit(alloc, noted, 2 * store.vars() as usize + 2)?;
    let mut listing = Implied::new(alloc);
    for at in from..trail.lits().len() {
        let l = trail.lits()[at];
        if is_new(store, marks.as_slice(), at - from, l) {
            let reasons = reasons_at(alloc, noted.as_mut_slice(), store, trail, at)?;
            listing.push(l, reasons)?;
        }
    }
    Ok(listing)
}
