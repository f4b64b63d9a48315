use gi_lit::{Assign, Clauses, Guards, Lit, Lits};
use gi_model::{Call, MAX_UNTRIMMED, Refusal, check_model, luby};
use std::alloc::{AllocError, Global};

/// Whether values that are all false satisfy the clause of one literal, and another literal.
fn are_satisfied(alloc: Global, l: Lit, assumed: Lit) -> Result<bool, AllocError> {
    let a = Assign::falses(alloc, 2)?;
    let mut clause = Lits::new(alloc);
    clause.push(l)?;
    let mut clauses = Clauses::new(alloc);
    clauses.push(clause)?;
    if l.var().index() > a.len() || assumed.var().index() > a.len() {
        return Ok(false);
    }
    Ok(check_model(&clauses, &[assumed], &a))
}

fn checks(alloc: Global, number: i32, assumed: i32, want: bool) -> bool {
    match (Lit::from_dimacs(number), Lit::from_dimacs(assumed)) {
        (Some(l), Some(other)) => are_satisfied(alloc, l, other) == Ok(want),
        _ => false,
    }
}

#[test]
fn models(rt: HostRuntime) {
    for (number, assumed, want) in [(-1, -2, true), (1, -2, false), (-1, 2, false)] {
        assert!(rt;
            checks(rt.alloc(), number, assumed, want),
            "at {number} {assumed}"
        );
    }
}

#[test]
fn calls_that_fit(rt: HostRuntime) {
    assert!(rt; Call::Solve(1).fits());
    assert!(rt; Call::Wait.fits());
    assert!(rt; !Call::Solve(0).fits());
    assert!(rt; !Call::Work(0).fits());
    assert!(rt; !Call::Under(Guards::new(rt.alloc()), Lits::new(rt.alloc())).fits());
}

#[test]
fn numbers_of_refusals(rt: HostRuntime) {
    for (refusal, number) in [
        (Refusal::Syntax, 1),
        (Refusal::Long, 2),
        (Refusal::Dead, 3),
        (Refusal::Busy, 4),
        (Refusal::Scoped, 5),
        (Refusal::Lit, 6),
        (Refusal::NotGuard, 7),
        (Refusal::Held, 8),
        (Refusal::Limit, 9),
        (Refusal::NoScope, 10),
        (Refusal::NotImplied, 11),
        (Refusal::NoSolve, 12),
        (Refusal::NoModel, 13),
        (Refusal::NoClause, 14),
    ] {
        assert_eq!(rt; refusal.number(), number);
    }
}

#[test]
fn luby_numbers(rt: HostRuntime) {
    for (place, number) in [
        (0, 1),
        (1, 1),
        (2, 2),
        (3, 1),
        (4, 1),
        (5, 2),
        (6, 4),
        (14, 8),
    ] {
        assert_eq!(rt; luby(place), number);
    }
}

#[test]
fn learnt_clauses_above_this_are_trimmed(rt: HostRuntime) {
    assert!(rt; MAX_UNTRIMMED == 20_000);
}
