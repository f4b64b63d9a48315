ghost use Rattle.std.specs.Prelude.{◌≡◌, ℕ, ◌+◌, ◌*◌, ◌/◌, ◌<◌, ◌≤◌, ◌⊎◌, length, Contains, IfOk, IfSome, IfNone, None, slice_index};
ghost use Rattle.gi_lit.specs.Literals.{max_var, opposite};
ghost use Rattle.gi_store.specs.StoreView.{StoreView};
ghost use Rattle.gi_prop.specs.TrailView.{HasValue, IsTrail, no_lits, cancelled};
ghost use Rattle.gi_prop.specs.Attached.{Attached, Goes};
ghost use Rattle.gi_cdcl.specs.Sound.{IsUsed};
ghost use Rattle.gi_cdcl.specs.Values.{AllAssigned, IsPassed, IsValueOf, IsAssignment};

use crate::order::Order;
use gi_lit::{Assign, Lit, Var};
use gi_prop::Trail;
use gi_store::Store;
use std::alloc::{AllocError, Global};

/// The variable behind `i` others.
fn variable(i: u32) -> Var
    requires { i < max_var }
    ensures { result ≡ i + 1 }
{
    match Var::new(i + 1) {
        Some(v) => v,
        None => unreachable!(),
    }
}

/// A literal of a variable.
fn literal(v: Var, phase: bool) -> Lit
    ensures { result / 2 ≡ v }
{
    if phase { v.positive() } else { v.negative() }
}

/// The literal to decide of a variable: none where it has a value, and of a variable that is no
/// more in use.
fn candidate(store: &Store, trail: &Trail, v: Var, phase: bool) -> Option<Lit>
    requires { v ≤ trail.now.vars }
    ensures free { IfSome result (λ l. (l / 2 ≡ v) × HasValue trail.now.lits l None) }
    ensures other { IfNone result
        ((l : ℕ) → l / 2 ≡ v → IsUsed store.now l
        → Contains trail.now.lits l ⊎ Contains trail.now.lits (opposite l)) }
{
    if !store.is_problem_var(v) && !store.is_active(v) {
        return None;
    }
    let l = literal(v, phase);
    match trail.value(l) {
        None => Some(l),
        Some(_) => None,
    }
}

/// A literal to decide, of the first variable in the order that has no value.
fn first_free(store: &Store, trail: &Trail, order: &mut Order) -> Option<Lit>
    ensures { IfSome result (λ l. (l / 2 ≤ trail.now.vars) × HasValue trail.now.lits l None) }
{
    let vars = trail.vars();
    for _i in 0..order.len() {
        let v = order.next()?;
        if v.index() as usize <= vars {
            let free = candidate(store, trail, v, order.phase(v));
            if free.is_some() {
                return free;
            }
        }
        order.pass();
    }
    None
}

/// A literal to decide, with the last value of its variable: of the first variable in the order
/// that has no value, else of the least, where the first
/// `passed` variables are known to have one. None exactly where all that is in use has a value.
pub(crate) fn free_literal(
    store: &Store,
    trail: &Trail,
    order: &mut Order,
    passed: &mut u32,
) -> Option<Lit>
    requires vars { store.now.vars ≤ trail.now.vars }
    requires passed { IsPassed store.now trail.now.lits passed.old }
    ensures free { IfSome result (λ l. (l / 2 ≤ trail.now.vars) × HasValue trail.now.lits l None) }
    ensures full { IfNone result (AllAssigned store.now trail.now.lits) }
    ensures passed { IsPassed store.now trail.now.lits passed.new }
{
    match first_free(store, trail, order) {
        Some(l) => Some(l),
        None => least_free(store, trail, order, passed),
    }
}

/// A literal to decide, of the least variable that has no value, where the first `passed` variables
/// are known to have one. None exactly where all that is in use has a value. Counts the variables
/// that have.
fn least_free(store: &Store, trail: &Trail, order: &Order, passed: &mut u32) -> Option<Lit>
    requires vars { store.now.vars ≤ trail.now.vars }
    requires passed { IsPassed store.now trail.now.lits passed.old }
    ensures free { IfSome result (λ l. (l / 2 ≤ trail.now.vars) × HasValue trail.now.lits l None) }
    ensures full { IfNone result (AllAssigned store.now trail.now.lits) }
    ensures passed { IsPassed store.now trail.now.lits passed.new }
{
    let vars = store.vars();
    while *passed < vars {
        let v = variable(*passed);
        match candidate(store, trail, v, order.phase(v)) {
            Some(l) => return Some(l),
            None => *passed += 1,
        }
    }
    None
}

/// Whether the variable at a place is true.
fn is_true(trail: &Trail, place: u32) -> bool
    requires within { place < trail.now.vars }
    requires small { place < max_var }
    requires trail { IsTrail trail.now }
    ensures { IsValueOf trail.now.lits place result }
{
    let l = variable(place).positive();
    match trail.value(l) {
        Some(value) => value,
        None => false,
    }
}

/// The values that make the trail's literals true, of variables 1 to n.
pub(crate) fn assignment(alloc: Global, trail: &Trail, n: u32) -> Result<Assign, AllocError>
    requires vars { n ≤ trail.now.vars }
    requires small { n ≤ max_var }
    requires trail { IsTrail trail.now }
    ensures { IfOk result (λ values. IsAssignment n trail.now.lits values) }
{
    let mut values = Vec::with_capacity(alloc, n as usize)?;
    for place in 0..n {
        values.push(is_true(trail, place))?;
    }
    Ok(Assign::from_vec(values))
}

/// Goes back to the root level, and gives the variables back to the order whose literals stood
/// above it.
pub(crate) fn back_to_root(order: &mut Order, trail: &mut Trail)
    ensures after { trail.new ≡ cancelled 0 trail.old }
    ensures goes { (p : Attached) (s : StoreView) → Goes p s trail.old → Goes p s trail.new }
{
    if trail.level() > 0 {
        let start = trail.start_of(0);
        unassign(order, trail, start);
    }
    trail.cancel_to(0);
}

/// Forgets what is true, and gives all variables back to the order.
pub(crate) fn forget(order: &mut Order, trail: &mut Trail)
    ensures after { trail.new ≡ no_lits trail.old.vars }
    ensures goes { (p : Attached) (s : StoreView) → Goes p s trail.old → Goes p s trail.new }
{
    unassign(order, trail, 0);
    trail.clear();
}

/// Gives the variables back to the order whose literals stand from a place on, and a number that
/// none of these variables is below.
pub(crate) fn unassign(order: &mut Order, trail: &Trail, start: usize) -> u32
    ensures { (k : ℕ) → start ≤ k → k < length trail.now.lits
        → result ≤ slice_index trail.now.lits k / 2 }
{
    let mut least = u32::MAX;
    let lits = trail.lits();
    for place in start..lits.len() {
        let l = lits[place];
        order.unassign(l);
        least = least.min(l.var().index());
    }
    least
}
