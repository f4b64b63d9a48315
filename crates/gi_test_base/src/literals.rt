use gi_lit::{Assign, Clause, Clauses, Edge, Guards, Lit, Lits, MAX_VAR, Var, top_variable};
use std::alloc::Global;

/// The number that DIMACS writes for a literal, its code and its variable.
const LITERALS: [(i32, u32, u32); 5] = [
    (-3, 7, 3),
    (3, 6, 3),
    (1, 2, 1),
    (16_777_216, 33_554_432, 16_777_216),
    (-16_777_216, 33_554_433, 16_777_216),
];

const NO_NUMBERS: [i32; 4] = [0, 16_777_217, -16_777_217, i32::MIN];

const NO_CODES: [u32; 3] = [0, 1, 33_554_434];

fn is_literal(number: i32, code: u32, variable: u32) -> bool {
    let Some(l) = Lit::from_dimacs(number) else {
        return false;
    };
    let same = Lit::from_code(code) == Some(l);
    let turned = l.not().to_dimacs() == -number;
    let is_of = l.var().index() == variable && l.is_negative() == (number < 0);
    l.code() == code && l.to_dimacs() == number && same && turned && is_of
}

fn is_variable(index: u32) -> bool {
    let Some(v) = Var::new(index) else {
        return false;
    };
    let positive = v.positive().code() == 2 * v.index();
    positive && v.negative().code() == 2 * v.index() + 1 && v.index() == index
}

fn is_edge(code: u32, node: u32, negative: bool, not: u32) -> bool {
    let e = Edge::new(code);
    let parts = e.node() == node && e.is_negative() == negative;
    e.code() == code && parts && e.not().code() == not
}

/// Whether the tables are right, and there are no literals and variables beside them.
fn codes_are_right() -> bool {
    let literals = LITERALS.iter().all(|(n, c, v)| is_literal(*n, *c, *v));
    let variables = LITERALS.iter().all(|(_, _, v)| is_variable(*v));
    let no_numbers = NO_NUMBERS.iter().all(|n| Lit::from_dimacs(*n).is_none());
    let no_codes = NO_CODES.iter().all(|c| Lit::from_code(*c).is_none());
    let no_variables = Var::new(0).is_none() && Var::new(16_777_217).is_none();
    literals && variables && no_numbers && no_codes && no_variables
}

/// The clause that DIMACS writes as these numbers, if they are literals and there is memory.
fn clause(alloc: Global, numbers: &[i32]) -> Option<Clause> {
    let mut c = Lits::new(alloc);
    for n in numbers {
        let l = Lit::from_dimacs(*n)?;
        c.push(l).ok()?;
    }
    Some(c)
}

fn is_clause(c: &Clause, numbers: &[i32]) -> bool {
    let same = c
        .as_slice()
        .iter()
        .map(|l| l.to_dimacs())
        .eq(numbers.iter().copied());
    same && c.len() == numbers.len() && c.is_empty() == numbers.is_empty()
}

/// Whether a list is what was pushed, and its copy too.
fn list_holds(alloc: Global) -> Option<bool> {
    let c = clause(alloc, &[1, -2])?;
    let again = Lits::from_vec(c.copy().ok()?.into_vec());
    let pushed = is_clause(&c, &[1, -2]) && top_variable(c.as_slice()) == 2;
    Some(pushed && is_clause(&again, &[1, -2]))
}

fn has_one(cs: &Clauses) -> bool {
    let first = match cs.get(0) {
        Some(c) => is_clause(c, &[1, -2]),
        None => false,
    };
    first && cs.len() == 1 && cs.as_slice().len() == 1 && cs.get(1).is_none()
}

/// Whether a list of clauses has the one that was pushed.
fn clauses_hold(alloc: Global) -> Option<bool> {
    let mut cs = Clauses::new(alloc);
    let empty = cs.is_empty();
    cs.push(clause(alloc, &[1, -2])?).ok()?;
    Some(empty && has_one(&Clauses::from_vec(cs.into_vec())))
}

fn has_two(guards: &Guards) -> bool {
    let same = guards.as_slice().iter().map(|v| v.index()).eq([3, 1]);
    same && guards.len() == 2 && !guards.is_empty()
}

/// Whether a list of guards is what was pushed, and its copy too.
fn guards_hold(alloc: Global) -> Option<bool> {
    let mut guards = Guards::new(alloc);
    guards.push(Var::new(3)?).ok()?;
    guards.push(Var::new(1)?).ok()?;
    let again = Guards::from_vec(guards.copy().ok()?.into_vec());
    Some(has_two(&guards) && has_two(&again))
}

/// Variable 1 of two made true.
fn first_true(alloc: Global) -> Option<Assign> {
    let mut a = Assign::falses(alloc, 2).ok()?;
    a.set(Var::new(1)?, true);
    Some(Assign::from_vec(a.into_vec()))
}

/// Whether an assignment of two variables satisfies the clause; None where it has others.
fn satisfies(alloc: Global, numbers: &[i32]) -> Option<bool> {
    let a = first_true(alloc)?;
    let c = clause(alloc, numbers)?;
    if top_variable(c.as_slice()) > a.len() {
        return None;
    }
    Some(a.satisfies(c.as_slice()))
}

fn tells_first(a: &Assign) -> Option<bool> {
    let v = Var::new(1)?;
    if a.len() != 2 || a.as_slice().len() != 2 {
        return None;
    }
    Some(a.get(v) && a.makes_true(v.positive()) && !a.makes_true(v.negative()))
}

#[test]
fn codes(rt: HostRuntime) {
    assert!(rt; MAX_VAR == 16_777_216);
    assert!(rt; codes_are_right());
    assert!(rt; is_edge(7, 3, true, 6) && is_edge(0, 0, false, 1));
}

#[test]
fn lists(rt: HostRuntime) {
    assert!(rt; list_holds(rt.alloc()) == Some(true));
    assert!(rt; clauses_hold(rt.alloc()) == Some(true));
    assert!(rt; guards_hold(rt.alloc()) == Some(true));
}

#[test]
fn assignments(rt: HostRuntime) {
    let told = first_true(rt.alloc()).and_then(|a| tells_first(&a));
    assert!(rt; told == Some(true));
    assert!(rt; satisfies(rt.alloc(), &[-1, 2]) == Some(false));
    assert!(rt; satisfies(rt.alloc(), &[1, -2]) == Some(true));
    assert!(rt; satisfies(rt.alloc(), &[]) == Some(false));
}
