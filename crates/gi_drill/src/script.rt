// The script.
ghost use Rattle.std.specs.Prelude.{◌≡◌, ◌++◌, ◌≤◌, length, IfOk, OnOk, map};
ghost use Rattle.gi_lit.specs.Literals.{IsVariable};
ghost use Rattle.gi_model.specs.declared.calls.Call.TheVariants.{Add};
ghost use Rattle.gi_drill.specs.Generator.{state_after};
ghost use Rattle.gi_drill.specs.Instance.{chosen, clauses, mended, plan};
ghost use Rattle.gi_drill.specs.Script.{line_text, lines_text, rounds, script_text};

use crate::generator::Generator;
use crate::instance::{choose, draw_plan, mend};
use crate::text::{put_add, put_round};
use gi_lit::{Assign, Var};
use gi_text::Bytes;
use std::alloc::{AllocError, Global};

/// The script of so many rounds: 150 variables and 600 clauses, which have a model, a solve, the
/// rounds, and a solve again. Each round asks for a variable and its negation under a guard, solves
/// under it and drops it. There is a line for each call, and the last is `bye`. An error is want of
/// memory.
pub fn write_script(alloc: Global, rounds: u32) -> Result<Bytes, AllocError>
    requires { rounds ≤ 10000 }
    ensures { IfOk result (λ bytes. bytes ≡ script_text rounds) }
{
    let mut out = Bytes::new(alloc);
    out.extend(b"vars 150\n")?;
    put_clauses(alloc, &mut out, rounds)?;
    out.extend(b"solve\nwait\n")?;
    put_rounds(&mut out, rounds)?;
    out.extend(b"solve\nwait\nvars 0\nbye\n")?;
    Ok(out)
}

// Adds the lines of all clauses.
fn put_clauses(alloc: Global, out: &mut Bytes, seed: u32) -> Result<(), AllocError>
    requires { seed ≤ 10000 }
    ensures { OnOk result (out.new ≡ out.old ++ lines_text (map Add (clauses seed))) }
{
    let mut generator = Generator::new(seed);
    let plan = draw_plan(alloc, &mut generator)?;
    for _i in 0..600_u32 {
        put_clause(out, &plan, &mut generator)?;
    }
    Ok(())
}

// Adds the line of the next clause.
fn put_clause(out: &mut Bytes, plan: &Assign, generator: &mut Generator) -> Result<(), AllocError>
    requires { length plan.now ≡ 150 }
    ensures text { OnOk result
        (out.new ≡ out.old ++ line_text (Add (mended plan.now (chosen generator.old)))) }
    ensures state { OnOk result (generator.new ≡ state_after 6 generator.old) }
{
    let (a, b, c) = choose(generator);
    let first = mend(plan, a, b, c);
    put_add(out, &[first, b, c])
}

// Adds the lines of so many rounds.
fn put_rounds(out: &mut Bytes, count: u32) -> Result<(), AllocError>
    ensures { OnOk result (out.new ≡ out.old ++ lines_text (rounds count)) }
{
    for i in 0..count {
        put_round(out, variable(1 + i % 150))?;
    }
    Ok(())
}

// The variable of that number.
fn variable(n: u32) -> Var
    requires { IsVariable n }
    ensures { result ≡ n }
{
    match Var::new(n) {
        Some(v) => v,
        None => unreachable!(),
    }
}
