ghost use Rattle.std.specs.Prelude.{◌≡◌, ◌<◌, ◌≤◌, ◌+◌, ◌-◌, ℕ, true, None, Some, [], ◌∷◌, ◌++◌, not, filter, drop, length, take, Contains, IfOk, OnOk, OnErr, sum_by};
ghost use Rattle.slab.specs.Slab.{get, Updates, HasRoomFor};
ghost use Rattle.gi_lit.specs.Problem.{names};
ghost use Rattle.gi_lit.specs.Lists.{IsDistinct};
ghost use Rattle.gi_store.specs.Stored.{clause_at, guard_part, group_length, is_under, keys_in};
ghost use Rattle.gi_store.specs.declared.group_key.GroupKey.{GroupKey};

use crate::group_key::GroupKey;
use crate::key::Key;
use gi_lit::{Lit, Lits, Var};
use slab::Slab;
use std::alloc::AllocError;

/// The most keys: the number of each fits a word of 32 bits, with one to spare.
const MAX_KEYS: usize = 4_294_967_295;

/// From so many clauses on memory doesn't grow twofold.
const MANY: usize = 16_777_216;

/// Whether the clause has a literal of the variable.
pub(crate) fn has_var(clause: &[Lit], v: Var) -> bool
    ensures { result ≡ names v clause.now }
{
    let wanted = v.index();
    clause.iter().any(|l| l.var().index() == wanted)
}

/// Whether the key's clause has a literal of the variable.
fn is_named(slots: &Slab<Lits>, key: Key, v: Var) -> bool
    ensures { result ≡ names v (clause_at slots.now key) }
{
    match slots.get(key.slot()) {
        Some(clause) => has_var(clause.as_slice(), v),
        None => false,
    }
}

/// Takes a key's clause away.
fn forget(slots: &mut Slab<Lits>, key: Key)
    ensures { Updates slots.old slots.new key None }
{
    let _ = slots.try_remove(key.slot());
}

/// Takes away the clauses that have a literal of the variable, and keeps the others in order.
pub(crate) fn forget_naming(slots: &mut Slab<Lits>, keys: &mut Vec<Key>, v: Var)
    requires distinct { IsDistinct keys.old.items }
    ensures kept { keys.new.items
        ≡ filter (λ k. not (names v (clause_at slots.old k))) keys.old.items }
    ensures others { (k : ℕ) → ¬ (Contains keys.old.items k
        × (names v (clause_at slots.old k) ≡ true)) → get slots.new k ≡ get slots.old k }
{
    let mut kept = 0;
    for i in 0..keys.len() {
        let key = keys[i];
        if is_named(slots, key, v) {
            forget(slots, key);
        } else {
            keys[kept] = key;
            kept += 1;
        }
    }
    keys.truncate(kept);
}

/// Takes the first keys and their clauses away.
pub(crate) fn forget_first(slots: &mut Slab<Lits>, keys: &mut Vec<Key>, count: usize)
    requires count { count ≤ length keys.old.items }
    ensures kept { keys.new.items ≡ drop count keys.old.items }
    ensures others { (k : ℕ) → ¬ Contains (take count keys.old.items) k
        → get slots.new k ≡ get slots.old k }
{
    for i in 0..count {
        forget(slots, keys[i]);
    }
    let _ = keys.drain(..count);
}

/// For how many clauses there is room.
pub(crate) fn room_of(slots: &Slab<Lits>) -> u64
    ensures slots { length slots.now.slots ≤ result }
    ensures word { result < 18446744073709551616 }
{
    slots.capacity() as u64
}

/// Makes room for a clause more: for as many again as there are, so that an insert costs constant
/// time, and where there are many already for an eighth of them.
fn make_room(slots: &mut Slab<Lits>) -> Result<(), AllocError>
    ensures room { OnOk result (HasRoomFor slots.new 1) }
    ensures rest { slots.new ≡ record slots.old { capacity = slots.new.capacity } }
{
    let clauses = slots.len();
    if clauses < MANY || clauses < slots.capacity() {
        return slots.reserve(1);
    }
    slots.reserve_exact(clauses / 8)
}

/// The key of the next clause; an error exactly where its number doesn't fit a key.
fn next_key(slots: &Slab<Lits>) -> Result<Key, AllocError>
    ensures ok { IfOk result (λ k. k ≡ slots.now.vacant_key) }
    ensures err { OnErr result (4294967295 ≤ slots.now.vacant_key) }
{
    let number = slots.vacant_key();
    if number >= MAX_KEYS {
        return Err(AllocError);
    }
    Ok(Key::of(number as u32))
}

/// Stores a clause, and puts its key behind the others.
pub(crate) fn insert(
    slots: &mut Slab<Lits>,
    keys: &mut Vec<Key>,
    clause: Lits,
) -> Result<Key, AllocError>
    ensures keys { IfOk result (λ k. keys.new.items ≡ keys.old.items ++ k ∷ []) }
    ensures vacant { IfOk result (λ k. get slots.old k ≡ None) }
    ensures updates { IfOk result (λ k. Updates slots.old slots.new k (Some clause)) }
    ensures err { OnErr result
        ((keys.new.items ≡ keys.old.items) × ((k : ℕ) → get slots.new k ≡ get slots.old k)) }
{
    keys.reserve(1)?;
    make_room(slots)?;
    let key = next_key(slots)?;
    let _ = slots.insert_reserved(clause);
    keys.push_reserved(key);
    Ok(key)
}

/// Stores the clause of a group with so many guards, and puts its key behind the others.
pub(crate) fn insert_group(
    slots: &mut Slab<Lits>,
    groups: &mut Vec<GroupKey>,
    clause: Lits,
    guards: usize,
) -> Result<Key, AllocError>
    ensures groups { IfOk result
        (λ k. groups.new.items ≡ groups.old.items ++ record { key = k; guards = guards } ∷ []) }
    ensures vacant { IfOk result (λ k. get slots.old k ≡ None) }
    ensures updates { IfOk result (λ k. Updates slots.old slots.new k (Some clause)) }
    ensures err { OnErr result
        ((groups.new.items ≡ groups.old.items) × ((k : ℕ) → get slots.new k ≡ get slots.old k)) }
{
    groups.reserve(1)?;
    make_room(slots)?;
    let key = next_key(slots)?;
    let _ = slots.insert_reserved(clause);
    groups.push_reserved(GroupKey { key, guards });
    Ok(key)
}

/// The last so many literals; all where there are fewer.
fn last(clause: &[Lit], count: usize) -> &[Lit]
    ensures { result.now ≡ guard_part count clause.now }
{
    let start = clause.len().saturating_sub(count);
    &clause[start..]
}

/// Whether a variable is among those of the last so many literals at a key. Looks at no others.
fn is_under(slots: &Slab<Lits>, key: Key, guards: usize, guard: Var) -> bool
    ensures { result ≡ names guard (guard_part guards (clause_at slots.now key)) }
{
    match slots.get(key.slot()) {
        Some(clause) => has_var(last(clause.as_slice(), guards), guard),
        None => false,
    }
}

/// How many literals the group at a key has as given.
fn group_length(slots: &Slab<Lits>, key: Key) -> u64
    ensures { result ≡ length (clause_at slots.now key) - 1 }
{
    match slots.get(key.slot()) {
        Some(clause) => (clause.len() as u64).saturating_sub(1),
        None => 0,
    }
}

/// Takes away the groups that name the guard, and keeps the others in order. Answers how many
/// literals these had as given.
pub(crate) fn forget_groups(slots: &mut Slab<Lits>, groups: &mut Vec<GroupKey>, guard: Var) -> u64
    requires distinct { IsDistinct (keys_in groups.old.items) }
    requires fits { sum_by (group_length slots.old) groups.old.items < 18446744073709551616 }
    ensures kept { groups.new.items
        ≡ filter (λ g. not (is_under guard slots.old g)) groups.old.items }
    ensures gone { result + sum_by (group_length slots.old) groups.new.items
        ≡ sum_by (group_length slots.old) groups.old.items }
    ensures others { (k : ℕ) → ((g : GroupKey) → Contains groups.old.items g → g.key ≡ k
        → is_under guard slots.old g ≡ true → ⊥) → get slots.new k ≡ get slots.old k }
{
    let mut kept = 0;
    let mut gone = 0;
    for i in 0..groups.len() {
        let group = groups[i];
        if is_under(slots, group.key, group.guards, guard) {
            let lits = group_length(slots, group.key);
            gone += lits;
            forget(slots, group.key);
        } else {
            groups[kept] = group;
            kept += 1;
        }
    }
    groups.truncate(kept);
    gone
}

/// The count of literals with so many more; an error exactly where 64 bits don't hold it.
pub(crate) fn more_lits(lits: u64, more: usize) -> Result<u64, AllocError>
    ensures ok { IfOk result (λ n. n ≡ lits + more) }
    ensures err { OnErr result (18446744073709551616 ≤ lits + more) }
{
    lits.checked_add(more as u64).ok_or(AllocError)
}
