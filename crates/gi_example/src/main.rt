//! A planner over the library: in how few steps does a lift come from floor 1 to the top floor, a
//! floor a step at most?
//!
//! It asks for 0 steps, then for 1, and so on. What holds of every plan is plain clauses; that the
//! top floor is reached after so many steps is a clause under a guard, which is dropped where there
//! is no such plan.
#![tactic(auto)]

ghost use Rattle.std.specs.Prelude.{◌≤◌};

mod fault;
mod found;
mod lift;
mod planner;

use fault::Fault;
use found::Found;
use gi_lit::Lits;
use lift::{FLOORS, MOST_STEPS, at, floor_of, is_at, start, step};
use planner::Planner;

fn print_plan(rt: &impl Print, steps: u32, model: &Lits) -> Result<(), Fault>
    requires { steps ≤ 8 }
{
    print!(rt; "in {steps} steps:")?;
    for literal in model.as_slice() {
        if is_at(*literal, steps) {
            print!(rt; " {}", floor_of(*literal))?;
        }
    }
    println!(rt; "")?;
    Ok(())
}

fn print_failed(rt: &impl Print, steps: u32, failed: &Lits) -> Result<(), Fault> {
    print!(rt; "not in {steps} steps: these can't hold:")?;
    for literal in failed.as_slice() {
        print!(rt; " {}", literal.to_dimacs())?;
    }
    println!(rt; "")?;
    Ok(())
}

fn plan(rt: &impl Print, planner: &mut Planner) -> Result<(), Fault> {
    start(planner)?;
    for steps in 0..MOST_STEPS {
        let goal = planner.guard()?;
        planner.add_under(goal, &[at(steps, FLOORS)])?;
        match planner.solve_with(goal)? {
            Found::Model(model) => return print_plan(rt, steps, &model),
            Found::Failed(failed) => print_failed(rt, steps, &failed)?,
        }
        planner.drop_guard(goal)?;
        step(planner, steps)?;
    }
    Ok(())
}

fn main(rt: HostRuntime) -> Result<(), Fault> {
    plan(&rt, &mut Planner::new(rt.alloc()))
}
