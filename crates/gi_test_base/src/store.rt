use gi_lit::{Guards, Lit, Lits, Var};
use gi_store::{NewGuard, Store, VarKind};
use std::alloc::Global;

/// A call of a store, or something that the store must tell.
#[derive(Clone, Copy)]
enum Step {
    Grow(u32),
    Add(&'static [i32]),
    /// A clause under these guards.
    Under(&'static [u32], &'static [i32]),
    Learn(&'static [i32]),
    /// A new guard, which is this variable.
    Guard(u32),
    Remove(u32),
    Trim,
    /// No new guard, since the variables are used up.
    Limit,
    Kind(u32, VarKind),
    /// The counts of clauses, of their literals as given and of learnt clauses.
    Counts(u64, u64, u64),
    /// The clause at a place of the problem's and the learnt ones.
    Clause(u64, &'static [i32]),
    Known(u64, &'static [i32]),
    /// No clause at that place, and no learnt one at the other.
    Past(u64, u64),
}

/// The literals that DIMACS writes as these numbers, if there is memory.
fn literals(alloc: Global, numbers: &[i32]) -> Option<Lits> {
    let mut clause = Lits::new(alloc);
    for n in numbers {
        let l = Lit::from_dimacs(*n)?;
        clause.push(l).ok()?;
    }
    Some(clause)
}

fn is_clause(clause: &[Lit], numbers: &[i32]) -> bool {
    clause
        .iter()
        .map(|l| l.to_dimacs())
        .eq(numbers.iter().copied())
}

fn add(store: &mut Store, clause: &Lits) -> bool {
    let c = clause.as_slice();
    store.is_plain(c) && store.add(c).is_ok()
}

/// The variables of these numbers, if there is memory.
fn variables(alloc: Global, numbers: &[u32]) -> Option<Guards> {
    let mut guards = Guards::new(alloc);
    for n in numbers {
        let g = Var::new(*n)?;
        guards.push(g).ok()?;
    }
    Some(guards)
}

fn add_under(store: &mut Store, guards: &Guards, clause: &Lits) -> bool {
    let gs = guards.as_slice();
    let c = clause.as_slice();
    if gs.is_empty() || !store.are_active(gs) || !store.is_plain(c) {
        return false;
    }
    store.add_under(gs, c).is_ok()
}

fn learn(store: &mut Store, clause: &Lits) -> bool {
    let c = clause.as_slice();
    store.is_within(c) && store.learn(c).is_ok()
}

fn remove(store: &mut Store, guard: u32) -> bool {
    match Var::new(guard) {
        Some(g) => {
            let active = store.is_active(g);
            if active {
                store.remove_guard(g);
            }
            active
        }
        None => false,
    }
}

fn guard(store: &mut Store) -> Option<u32> {
    match store.new_guard() {
        NewGuard::Guard(v) => Some(v.index()),
        _ => None,
    }
}

fn trim(store: &mut Store) -> bool {
    store.trim();
    true
}

fn is_kind(store: &Store, v: u32, kind: VarKind) -> bool {
    match Var::new(v) {
        Some(v) => store.kind(v) == kind,
        None => false,
    }
}

fn holds(store: &Store, place: u64, numbers: &[i32]) -> bool {
    match store.key_at(place) {
        Some(key) => is_clause(store.clause(key), numbers),
        None => false,
    }
}

fn knows(store: &Store, place: u64, numbers: &[i32]) -> bool {
    match store.known_at(place) {
        Some(clause) => is_clause(clause, numbers),
        None => false,
    }
}

/// Whether the call succeeds, or the store tells so.
fn passes(alloc: Global, store: &mut Store, step: Step) -> bool {
    let clause = match step {
        Step::Add(c) | Step::Under(_, c) | Step::Learn(c) => c,
        _ => &[],
    };
    let Some(clause) = literals(alloc, clause) else {
        return false;
    };
    match step {
        Step::Grow(n) => n <= 16_777_216 && store.grow(n).is_ok(),
        Step::Add(_) => add(store, &clause),
        Step::Under(gs, _) => match variables(alloc, gs) {
            Some(guards) => add_under(store, &guards, &clause),
            None => false,
        },
        Step::Learn(_) => learn(store, &clause),
        Step::Guard(v) => guard(store) == Some(v),
        Step::Remove(g) => remove(store, g),
        Step::Trim => trim(store),
        Step::Limit => store.new_guard() == NewGuard::Limit,
        step => tells(store, step),
    }
}

fn tells(store: &Store, step: Step) -> bool {
    match step {
        Step::Kind(v, kind) => is_kind(store, v, kind),
        Step::Counts(problem, lits, known) => {
            store.problem() == problem && store.lits() == lits && store.known() == known
        }
        Step::Clause(place, numbers) => holds(store, place, numbers),
        Step::Known(place, numbers) => knows(store, place, numbers),
        Step::Past(place, known) => {
            store.key_at(place).is_none() && store.known_at(known).is_none()
        }
        _ => false,
    }
}

const A_GUARD_COMES_AGAIN: [Step; 19] = [
    Step::Grow(2),
    Step::Add(&[1, 2]),
    Step::Guard(3),
    Step::Under(&[3], &[1]),
    Step::Clause(2, &[1, -3]),
    Step::Learn(&[2, -3]),
    Step::Learn(&[2]),
    Step::Counts(2, 3, 2),
    Step::Kind(3, VarKind::Active),
    Step::Remove(3),
    Step::Counts(1, 2, 1),
    Step::Known(1, &[2]),
    Step::Clause(2, &[2]),
    Step::Past(0, 0),
    Step::Past(3, 2),
    Step::Kind(3, VarKind::Freed),
    Step::Kind(4, VarKind::Beyond),
    Step::Guard(3),
    Step::Kind(2, VarKind::Problem),
];

/// The literals of a group as given are those of its clause, and one for each guard after the first.
const A_GROUP_GOES_WITH_ANY_OF_ITS_GUARDS: [Step; 13] = [
    Step::Grow(1),
    Step::Guard(2),
    Step::Guard(3),
    Step::Under(&[2, 3, 2], &[1]),
    Step::Under(&[3], &[]),
    Step::Under(&[2], &[-1, 1]),
    Step::Clause(1, &[1, -2, -3, -2]),
    Step::Clause(2, &[-3]),
    Step::Counts(3, 5, 0),
    Step::Remove(3),
    Step::Counts(1, 2, 0),
    Step::Clause(1, &[-1, 1, -2]),
    Step::Past(2, 1),
];

const THE_GUARD_FREED_LAST_COMES_FIRST: [Step; 7] = [
    Step::Guard(1),
    Step::Guard(2),
    Step::Remove(1),
    Step::Remove(2),
    Step::Guard(2),
    Step::Guard(1),
    Step::Guard(3),
];

const THE_OLDER_HALF_GOES: [Step; 8] = [
    Step::Grow(3),
    Step::Learn(&[1]),
    Step::Learn(&[2]),
    Step::Learn(&[3]),
    Step::Trim,
    Step::Counts(0, 0, 2),
    Step::Known(1, &[2]),
    Step::Known(2, &[3]),
];

const NO_GUARD_ABOVE_THE_LIMIT: [Step; 2] = [Step::Grow(16_777_216), Step::Limit];

/// The place of the first step that fails on a new store, if any does.
fn failing(alloc: Global, steps: &[Step]) -> Option<usize> {
    let mut store = Store::new(alloc);
    for (i, step) in steps.iter().enumerate() {
        if !passes(alloc, &mut store, *step) {
            return Some(i);
        }
    }
    None
}

#[test]
fn a_guard_comes_again(rt: HostRuntime) {
    assert_eq!(rt; failing(rt.alloc(), &A_GUARD_COMES_AGAIN), None);
}

#[test]
fn a_group_goes_with_any_of_its_guards(rt: HostRuntime) {
    assert_eq!(rt;
        failing(rt.alloc(), &A_GROUP_GOES_WITH_ANY_OF_ITS_GUARDS),
        None
    );
}

#[test]
fn the_guard_freed_last_comes_first(rt: HostRuntime) {
    assert_eq!(rt;
        failing(rt.alloc(), &THE_GUARD_FREED_LAST_COMES_FIRST),
        None
    );
}

#[test]
fn the_older_half_goes(rt: HostRuntime) {
    assert_eq!(rt; failing(rt.alloc(), &THE_OLDER_HALF_GOES), None);
}

#[test]
fn no_guard_above_the_limit(rt: HostRuntime) {
    assert_eq!(rt; failing(rt.alloc(), &NO_GUARD_ABOVE_THE_LIMIT), None);
}
