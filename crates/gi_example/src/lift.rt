//! The lift: where it is at each time, as literals and clauses.
ghost use Rattle.std.specs.Prelude.{◌≡◌, ◌<◌, ◌≤◌, MatchBool};
ghost use Rattle.gi_lit.specs.Literals.{IsVariable};
ghost use Rattle.gi_example.specs.Lift.{IsPlace, at_floor};

use crate::fault::Fault;
use crate::planner::Planner;
use gi_lit::{Lit, Var};

/// How many floors there are; the lift begins at floor 1.
pub const FLOORS: u32 = 4;

/// So many steps and more are not tried.
pub const MOST_STEPS: u32 = 8;

/// 'The lift is at that floor after so many steps', as a literal.
pub fn at(steps: u32, floor: u32) -> Lit
    requires steps { steps ≤ 8 }
    requires floor { (1 ≤ floor) × (floor ≤ 4) }
    ensures { result ≡ at_floor steps floor }
{
    variable(steps * FLOORS + floor).positive()
}

// The variable of that number.
fn variable(number: u32) -> Var
    requires { IsVariable number }
    ensures { result ≡ number }
{
    match Var::new(number) {
        Some(variable) => variable,
        None => unreachable!(),
    }
}

/// The floor of a literal of `at`.
pub fn floor_of(literal: Lit) -> u32
    ensures { (p : IsPlace 8 literal) → result ≡ p.floor }
{
    (literal.code() / 2 + FLOORS - 1) % FLOORS + 1
}

/// Whether the literal is 'the lift is at some floor' after at most so many steps.
pub fn is_at(literal: Lit, steps: u32) -> bool
    requires { steps ≤ 8 }
    ensures { MatchBool result (IsPlace steps literal) (¬ IsPlace steps literal) }
{
    if literal.is_negative() {
        return false;
    }
    if literal.code() / 2 > (steps + 1) * FLOORS {
        return false;
    }
    true
}

/// The clauses of the beginning: the lift is at floor 1 and at no other.
pub fn start(planner: &mut Planner) -> Result<(), Fault> {
    planner.grow((MOST_STEPS + 1) * FLOORS)?;
    planner.add(&[at(0, 1)])?;
    for floor in 2..FLOORS + 1 {
        planner.add(&[at(0, floor).not()])?;
    }
    Ok(())
}

/// The clauses of a step: where the lift is then, it was there before or a floor away.
pub fn step(planner: &mut Planner, steps: u32) -> Result<(), Fault>
    requires { steps < 8 }
{
    for floor in 1..FLOORS + 1 {
        let now = at(steps + 1, floor);
        let below = at(steps, floor.max(2) - 1);
        let above = at(steps, (floor + 1).min(FLOORS));
        planner.add(&[now.not(), below, at(steps, floor), above])?;
        not_at_two(planner, steps + 1, floor)?;
    }
    Ok(())
}

// The clauses 'where the lift is at that floor, it is at no higher one'.
fn not_at_two(planner: &mut Planner, steps: u32, floor: u32) -> Result<(), Fault>
    requires steps { steps ≤ 8 }
    requires floor { (1 ≤ floor) × (floor ≤ 4) }
{
    for other in floor + 1..FLOORS + 1 {
        planner.add(&[at(steps, floor).not(), at(steps, other).not()])?;
    }
    Ok(())
}
