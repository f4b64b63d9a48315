// The new numbers of variables.
ghost use Rattle.std.specs.Prelude.{◌≡◌, ◌/◌, ◌<◌, ◌^◌, ◌++◌, ℕ, length, map, IfOk, OnOk};
ghost use Rattle.gi_aiger.specs.declared.aig.Latch.{Latch};
ghost use Rattle.gi_aiger.specs.declared.aig.AndGate.{AndGate};
ghost use Rattle.gi_aiger_binary.specs.Renumbering.{number_in, variables_of};
ghost use Rattle.gi_aiger_binary.specs.Numbers.{noted};
ghost use Rattle.gi_aiger.specs.Tables.{value_of};

use gi_aiger::{Aig, AndGate, Latch, Table};
use gi_lit::Edge;
use std::alloc::{AllocError, Global};

fn put_inputs(variables: &mut Vec<u32>, inputs: &[Edge]) -> Result<(), AllocError>
    ensures { OnOk result (variables.new.items ≡ variables.old.items
        ++ map (λ l. l / 2) inputs.now) }
{
    for input in inputs {
        variables.push(input.node())?;
    }
    Ok(())
}

fn put_latches(variables: &mut Vec<u32>, latches: &[Latch]) -> Result<(), AllocError>
    ensures { OnOk result (variables.new.items ≡ variables.old.items
        ++ map (λ (l : Latch). l.lit / 2) latches.now) }
{
    for latch in latches {
        variables.push(latch.lit.node())?;
    }
    Ok(())
}

fn put_gates(variables: &mut Vec<u32>, gates: &[AndGate]) -> Result<(), AllocError>
    ensures { OnOk result (variables.new.items ≡ variables.old.items
        ++ map (λ (g : AndGate). g.lhs / 2) gates.now) }
{
    for gate in gates {
        variables.push(gate.lhs.node())?;
    }
    Ok(())
}

/// The variables in their new order: of the inputs, of the latches, and of these gates.
pub(crate) fn variables_of(
    alloc: Global,
    aig: &Aig,
    gates: &[AndGate],
) -> Result<Vec<u32>, AllocError>
    ensures { IfOk result (λ variables. variables.items ≡ variables_of aig.now gates.now) }
{
    let inputs = aig.inputs.listed(alloc)?;
    let mut variables = Vec::new(alloc);
    put_inputs(&mut variables, inputs.as_slice())?;
    put_latches(&mut variables, aig.latches.as_slice())?;
    put_gates(&mut variables, gates)?;
    Ok(variables)
}

// A variable that has no number has this one; variable 0 has none.
fn note(numbers: &mut Table<u32>, variable: u32, number: u32) -> Result<(), AllocError>
    ensures { OnOk result ((x : ℕ) → value_of numbers.new x
        ≡ noted (value_of numbers.old) variable number x) }
{
    if variable == 0 {
        return Ok(());
    }
    if numbers.get(variable) != 0 {
        return Ok(());
    }
    numbers.put(variable, number)
}

/// The numbers of variables by their order, from 1; 0 where a variable has none.
pub(crate) fn numbers_of(alloc: Global, variables: &[u32]) -> Result<Table<u32>, AllocError>
    requires { length variables.now < 2 ^ 31 }
    ensures { IfOk result (λ numbers. (x : ℕ) → value_of numbers x ≡ number_in variables.now x) }
{
    let mut numbers = Table::new(alloc, 0);
    for (place, variable) in variables.iter().enumerate() {
        note(&mut numbers, *variable, place as u32 + 1)?;
    }
    Ok(numbers)
}
