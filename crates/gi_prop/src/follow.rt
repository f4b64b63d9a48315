ghost use Rattle.std.specs.Prelude.{◌≡◌, ℕ, Option, Some, None, ◌+◌, ◌/◌, ◌<◌, ◌≤◌, length, slice_index, slice_index_or, IfSome, IfNone, IsTrue, Contains};
ghost use Rattle.gi_chains.specs.Lists.{IsApart, IsLinked};
ghost use Rattle.gi_prop.specs.Attached.{IsConflict, AddsForced, keys_alone};
ghost use Rattle.gi_prop.specs.Watched.{IsIn};
ghost use Rattle.gi_prop.specs.Watching.{IsWatched, IsLooking, IsAdded, IsMoved, LeavesAside};
ghost use Rattle.gi_prop.specs.Steps.{IsStep};

use crate::look::{Look, Visited, list_of, look_at, watched_lit};
use crate::starts::Starts;
use crate::trail::Trail;
use gi_chains::Chains;
use gi_lit::Lit;
use gi_store::{Key, Store};

/// The attached key of a node.
pub(crate) fn key_of(slots: &[Option<Key>], node: u64) -> Key
    requires { slice_index_or slots.now node None ≡ Some node }
    ensures { result ≡ node }
{
    match slots[node as usize] {
        Some(key) => key,
        None => unreachable!(),
    }
}

/// Takes a node from its list to the front of another, and gives it another word.
pub(crate) fn move_to(chains: &mut Chains, list: u32, node: u64, word: u32)
    requires linked { IsLinked chains.old.lists node }
    requires list { list < length chains.old.lists }
    requires apart { IsApart chains.old }
    ensures moved { IsMoved chains.old chains.new list node }
    ensures word { slice_index chains.new.words node ≡ word }
{
    chains.unlink(node);
    chains.push_front(list, node);
    chains.set_word(node, word);
}

/// Whether the word of a node is a literal that is true: the clause needs no look then.
fn is_blocked(chains: &Chains, trail: &Trail, node: u64) -> bool
    requires node { node < chains.now.nodes }
    requires within { let word = slice_index chains.now.words node in 2 ≤ word
        → word / 2 ≤ trail.now.vars }
    ensures { let word = slice_index chains.now.words node in IsTrue result
        → (2 ≤ word) × Contains trail.now.lits word }
{
    match Lit::from_code(chains.word(node)) {
        None => false,
        Some(l) => trail.is_true(l),
    }
}

/// Sees to one clause whose watch became false: keeps it, moves the watch, or forces the other one.
fn settle(
    ours: &mut Chains,
    theirs: &Chains,
    slots: &[Option<Key>],
    starts: &mut Starts,
    store: &Store,
    trail: &mut Trail,
    falsified: Lit,
    node: u64,
) -> Visited
    ghost seen: { ℕ }
    requires watched { IsWatched slots.now ours.old theirs.now store.now trail.old trail.old.head
        seen }
    requires looking { IsLooking trail.old falsified }
    requires watch { IsIn ours.old (falsified + 1) node }
    requires high { seen ≤ length trail.old.lits }
    ensures watched { IsWatched slots.now ours.new theirs.now store.now trail.new trail.new.head
        seen }
    ensures added { IsAdded slots.now store.now trail.old trail.new }
    ensures step { IsStep slots.now ours.old ours.new theirs.now store.now trail.new seen falsified
        node result }
{
    if is_blocked(ours, trail, node) {
        return Visited::Kept;
    }
    let key = key_of(slots, node);
    let Some(list) = theirs.list_of(node) else {
        unreachable!()
    };
    let Some(other) = watched_lit(list) else {
        unreachable!()
    };
    match look_at(store.clause(key), other, trail, starts, node) {
        Look::Keep => {
            ours.set_word(node, other.code());
            Visited::Kept
        }
        Look::Move(l) => {
            move_to(ours, list_of(l), node, other.code());
            Visited::Moved
        }
        Look::Force => {
            trail.assign(other, Some(key));
            Visited::Kept
        }
        Look::Conflict => Visited::Failed(key),
    }
}

/// Goes through the watches of a literal that became false, on one side.
fn visit(
    ours: &mut Chains,
    theirs: &Chains,
    slots: &[Option<Key>],
    starts: &mut Starts,
    store: &Store,
    trail: &mut Trail,
    falsified: Lit,
) -> Option<Key>
    ghost seen: { ℕ }
    requires watched { IsWatched slots.now ours.old theirs.now store.now trail.old trail.old.head
        seen }
    requires looking { IsLooking trail.old falsified }
    requires high { seen ≤ length trail.old.lits }
    ensures watched { IsWatched slots.now ours.new theirs.now store.now trail.new trail.new.head
        seen }
    ensures added { IsAdded slots.now store.now trail.old trail.new }
    ensures aside { LeavesAside ours.old ours.new }
    ensures closed { IfNone result
        (IsWatched slots.now ours.new theirs.now store.now trail.new (trail.new.head + 1) seen) }
    ensures conflict { IfSome result (IsConflict (keys_alone slots.now) store.now trail.new.lits) }
{
    let list = list_of(falsified);
    if list as usize >= ours.lists() {
        return None;
    }
    let mut at = ours.first(list);
    'nodes: while let Some(node) = at {
        let next = ours.next(node);
        match settle(ours, theirs, slots, starts, store, trail, falsified, node) {
            Visited::Failed(key) => return Some(key),
            Visited::Kept => {}
            Visited::Moved => {}
        }
        at = next;
    }
    None
}

/// Goes through the watches of the literal on the other side, when those of one side were gone
/// through.
fn visit_other(
    ours: &mut Chains,
    theirs: &Chains,
    slots: &[Option<Key>],
    starts: &mut Starts,
    store: &Store,
    trail: &mut Trail,
    falsified: Lit,
) -> Option<Key>
    requires watched { IsWatched slots.now ours.old theirs.now store.now trail.old trail.old.head
        (trail.old.head + 1) }
    requires looking { IsLooking trail.old falsified }
    ensures watched { IsWatched slots.now ours.new theirs.now store.now trail.new trail.new.head
        (trail.new.head + 1) }
    ensures added { IsAdded slots.now store.now trail.old trail.new }
    ensures aside { LeavesAside ours.old ours.new }
    ensures closed { IfNone result
        (IsWatched slots.now ours.new theirs.now store.now trail.new (trail.new.head + 1)
        (trail.new.head + 1)) }
    ensures conflict { IfSome result (IsConflict (keys_alone slots.now) store.now trail.new.lits) }
{
    visit(ours, theirs, slots, starts, store, trail, falsified)
}

/// Follows the trail: looks at the clauses that watch what became false, until all of the trail was
/// looked at or a clause is false.
pub(crate) fn follow(
    first: &mut Chains,
    second: &mut Chains,
    slots: &[Option<Key>],
    starts: &mut Starts,
    store: &Store,
    trail: &mut Trail,
) -> Option<Key>
    requires { IsWatched slots.now first.old second.old store.now trail.old trail.old.head
        trail.old.head }
    ensures watched { IsWatched slots.now first.new second.new store.now trail.new trail.new.head
        trail.new.head }
    ensures adds { AddsForced (keys_alone slots.now) store.now trail.old trail.new }
    ensures first_aside { LeavesAside first.old first.new }
    ensures second_aside { LeavesAside second.old second.new }
    ensures looked { IfNone result (trail.new.head ≡ length trail.new.lits) }
    ensures conflict { IfSome result (IsConflict (keys_alone slots.now) store.now trail.new.lits) }
{
    'trail: while let Some(l) = trail.unseen() {
        let falsified = l.not();
        if let Some(key) = visit(first, second, slots, starts, store, trail, falsified) {
            return Some(key);
        }
        if let Some(key) = visit_other(second, first, slots, starts, store, trail, falsified) {
            return Some(key);
        }
        trail.advance();
    }
    None
}
