ghost use Rattle.std.specs.Prelude.{◌≡◌, ℕ, List, Option, ◌+◌, ◌<◌, ◌≤◌, length, IfSome, IfNone, Contains};
ghost use Rattle.gi_store.specs.StoreView.{Holds};
ghost use Rattle.gi_prop.specs.Attached.{IsConflict, AddsForced, keys_alone};
ghost use Rattle.gi_prop.specs.Watched.{IsIn};
ghost use Rattle.gi_prop.specs.Watching.{IsWatched, IsAdded, LeavesAside, ArePassed};
ghost use Rattle.gi_prop.specs.Steps.{AreOthersFalse, IsPromoted};

use crate::follow::{key_of, move_to};
use crate::look::{EMPTY, Left, SINGLE, Visited, WAITING, late_in, list_of, non_false};
use crate::trail::Trail;
use gi_chains::Chains;
use gi_lit::Lit;
use gi_store::{Key, Store};

/// Has a clause with one true literal, whose others are false, watch that one and one that became
/// false late, if one did: it needs no look then until that one is free again.
fn watch_late(
    first: &mut Chains,
    second: &mut Chains,
    slots: &[Option<Key>],
    store: &Store,
    clause: &[Lit],
    trail: &Trail,
    node: u64,
    forced: Lit,
) -> Visited
    requires watched { IsWatched slots.now first.old second.old store.now trail.now trail.now.head
        trail.now.head }
    requires linked { (list : ℕ) × (list < 3) × IsIn first.old list node }
    requires held { Holds store.now node clause.now }
    requires only { (c : List ℕ) → Holds store.now node c → clause.now ≡ c }
    requires stands { Contains clause.now forced }
    requires is_true { Contains trail.now.lits forced }
    requires others { AreOthersFalse trail.now.lits clause.now forced }
    ensures watched { IsWatched slots.now first.new second.new store.now trail.now trail.now.head
        trail.now.head }
    ensures aside { LeavesAside second.old second.new }
    ensures step { IsPromoted slots.now first.old first.new store.now trail.now node result }
{
    let _ = slots.len();
    let _ = store.vars();
    match late_in(clause, forced, trail) {
        None => Visited::Kept,
        Some(l) => {
            move_to(first, list_of(forced), node, l.code());
            move_to(second, list_of(l), node, forced.code());
            Visited::Moved
        }
    }
}

/// Sees to one clause that watches nothing: two watches if two different literals aren't false,
/// else what it forces, with two watches if another became false late.
fn promote(
    first: &mut Chains,
    second: &mut Chains,
    slots: &[Option<Key>],
    store: &Store,
    trail: &mut Trail,
    node: u64,
) -> Visited
    requires watched { IsWatched slots.now first.old second.old store.now trail.old trail.old.head
        trail.old.head }
    requires linked { (list : ℕ) × (list < 3) × IsIn first.old list node }
    ensures watched { IsWatched slots.now first.new second.new store.now trail.new trail.new.head
        trail.new.head }
    ensures added { IsAdded slots.now store.now trail.old trail.new }
    ensures aside { LeavesAside second.old second.new }
    ensures step { IsPromoted slots.now first.old first.new store.now trail.new node result }
{
    let key = key_of(slots, node);
    let clause = store.clause(key);
    match non_false(clause, trail) {
        Left::Two(a, b) => {
            move_to(first, list_of(a), node, b.code());
            move_to(second, list_of(b), node, a.code());
            Visited::Moved
        }
        Left::One(l) => match trail.value(l) {
            None => {
                trail.assign(l, Some(key));
                watch_late(first, second, slots, store, clause, trail, node, l)
            }
            Some(_) => watch_late(first, second, slots, store, clause, trail, node, l),
        },
        Left::Nothing => Visited::Failed(key),
    }
}

/// Goes through a list of clauses that watch nothing.
fn scan(
    first: &mut Chains,
    second: &mut Chains,
    slots: &[Option<Key>],
    store: &Store,
    trail: &mut Trail,
    list: u32,
) -> Option<Key>
    requires watched { IsWatched slots.now first.old second.old store.now trail.old trail.old.head
        trail.old.head }
    requires list { list < 3 }
    ensures watched { IsWatched slots.now first.new second.new store.now trail.new trail.new.head
        trail.new.head }
    ensures added { IsAdded slots.now store.now trail.old trail.new }
    ensures first_aside { LeavesAside first.old first.new }
    ensures second_aside { LeavesAside second.old second.new }
    ensures passed { IfNone result (ArePassed first.new store.now trail.new.lits list) }
    ensures conflict { IfSome result (IsConflict (keys_alone slots.now) store.now trail.new.lits) }
{
    if list as usize >= first.lists() {
        return None;
    }
    let mut at = first.first(list);
    'nodes: while let Some(node) = at {
        let next = first.next(node);
        match promote(first, second, slots, store, trail, node) {
            Visited::Failed(key) => return Some(key),
            Visited::Kept => {}
            Visited::Moved => {}
        }
        at = next;
    }
    None
}

/// Goes through all clauses that watch nothing: adds what they force, or gives one that is false.
pub(crate) fn scan_all(
    first: &mut Chains,
    second: &mut Chains,
    slots: &[Option<Key>],
    store: &Store,
    trail: &mut Trail,
) -> Option<Key>
    requires { IsWatched slots.now first.old second.old store.now trail.old trail.old.head
        trail.old.head }
    ensures watched { IsWatched slots.now first.new second.new store.now trail.new trail.new.head
        trail.new.head }
    ensures added { IsAdded slots.now store.now trail.old trail.new }
    ensures first_aside { LeavesAside first.old first.new }
    ensures second_aside { LeavesAside second.old second.new }
    ensures passed { IfNone result
        ((list : ℕ) → list < 3 → ArePassed first.new store.now trail.new.lits list) }
    ensures conflict { IfSome result (IsConflict (keys_alone slots.now) store.now trail.new.lits) }
{
    if let Some(key) = scan(first, second, slots, store, trail, EMPTY) {
        return Some(key);
    }
    if let Some(key) = scan(first, second, slots, store, trail, SINGLE) {
        return Some(key);
    }
    scan(first, second, slots, store, trail, WAITING)
}
