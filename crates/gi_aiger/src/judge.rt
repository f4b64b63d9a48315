// What a machine has read at the end of the input.
ghost use Rattle.std.specs.Prelude.{◌≡◌, ◌+◌, ◌<◌, ◌++◌, Some, None, ℕ, take, drop, length, IfOk};
ghost use Rattle.gi_aiger.specs.Files.{aig_of, gates_line, shares, whole};
ghost use Rattle.gi_aiger.specs.Levels.{IsDistinct};
ghost use Rattle.gi_aiger.specs.Machine.{IsFit, answer, answer_now, answer_of};
ghost use Rattle.gi_aiger.specs.Taking.{IsBounded};
ghost use Rattle.gi_aiger.specs.Answers.{IsCycleAt, Reads, TellsAig};
ghost use Rattle.gi_aiger.specs.declared.read.AigRead.TheVariants as reads;
ghost use Rattle.gi_aiger.specs.declared.fault.AigCode.TheVariants as codes;
ghost use Rattle.std.specs.Prelude.{◌≤◌, Err};
ghost use Rattle.gi_aiger.specs.Limits.{most_items};

use crate::aig::Aig;
use crate::fault::{AigCode, AigFault};
use crate::gates::first_cycle;
use crate::head::Head;
use crate::lists::{EdgeLists, Edges};
use crate::machine::{Machine, end_last};
use crate::named::Named;
use crate::phase::Phase;
use crate::read::AigRead;
use crate::taken::Taken;
use gi_lit::Edge;
use gi_text::Bytes;
use std::alloc::{AllocError, Global};

// The first literals, as many as there are.
fn first_of(literals: &[Edge], count: usize) -> &[Edge]
    ensures { result.now ≡ take count literals.now }
{
    if count < literals.len() {
        &literals[..count]
    } else {
        literals
    }
}

// What stands behind them.
fn rest_of(literals: &[Edge], count: usize) -> &[Edge]
    ensures { result.now ≡ drop count literals.now }
{
    if count < literals.len() {
        &literals[count..]
    } else {
        &[]
    }
}

// The justice properties, by their sizes.
fn shares(alloc: Global, sizes: &[u32], literals: &[Edge]) -> Result<EdgeLists, AllocError>
    ensures { IfOk result (λ lists. lists ≡ shares sizes.now literals.now) }
{
    let mut lists = EdgeLists::new(alloc);
    let mut rest = literals;
    for size in sizes {
        let count = *size as usize;
        lists.push(Edges::of(alloc, first_of(rest, count))?)?;
        rest = rest_of(rest, count);
    }
    Ok(lists)
}

// The value that was read.
fn aig_of(
    alloc: Global,
    head: Head,
    taken: Taken,
    symbols: Named,
    comment: Option<Bytes>,
) -> Result<Aig, AllocError>
    requires { head.max ≤ most_items }
    ensures { IfOk result (λ aig. aig ≡ aig_of head taken symbols comment) }
{
    let justice = shares(alloc, taken.sizes.as_slice(), taken.justice.as_slice())?;
    let Taken {
        inputs,
        latches,
        outs,
        bads,
        cons,
        sizes: _,
        total: _,
        justice: _,
        fair,
        gates,
        marks: _,
    } = taken;
    Ok(Aig {
        max: head.max as u32,
        inputs,
        latches,
        outs,
        bads,
        cons,
        justice,
        fair,
        gates,
        symbols: symbols.into_symbols(),
        comment,
    })
}

fn value(alloc: Global, head: Head, taken: Taken, symbols: Named, comment: Option<Bytes>) -> AigRead
    requires { head.max ≤ most_items }
    ensures { Reads result (whole head taken symbols comment).read }
{
    match aig_of(alloc, head, taken, symbols, comment) {
        Ok(aig) => AigRead::Aig(aig),
        Err(_) => AigRead::NoMemory,
    }
}

fn fault(line: u64, gate: u32, code: AigCode) -> AigRead
    ensures { result ≡ reads.Fault (record { line = line; gate = gate; code = code }) }
{
    AigRead::Fault(AigFault { line, gate, code })
}

// The input ends in a binary gate.
fn cut_gate(line: u64, gates: usize) -> AigRead
    requires { gates ≤ most_items }
    ensures { result ≡ reads.Fault (record { line = line; gate = gates + 1; code = codes.End }) }
{
    fault(line, gates as u32 + 1, AigCode::End)
}

// What the machine says, the cycles of gates left aside.
fn answer_of(machine: Machine) -> AigRead
    requires fit { IsFit machine }
    ensures { Reads result (answer_now machine).read }
{
    let Machine {
        alloc,
        line,
        phase,
        head,
        word: _,
        taken,
        symbols,
        comment,
    } = machine;
    match phase {
        Phase::Heading => fault(line, 0, AigCode::End),
        Phase::Rows(_) => fault(line, 0, AigCode::End),
        Phase::Gates(_) => cut_gate(line, taken.gates.len()),
        Phase::Naming => value(alloc, head, taken, symbols, None),
        Phase::Comment => value(alloc, head, taken, symbols, Some(comment)),
        Phase::Failed { gate, code } => fault(line, gate, code),
    }
}

// The line of the first gate.
fn gates_line(taken: &Taken) -> u64
    requires { IsBounded taken.now }
    ensures { result ≡ gates_line taken.now }
{
    2 + taken.inputs.len() as u64
        + taken.latches.len() as u64
        + taken.outs.len() as u64
        + taken.bads.len() as u64
        + taken.cons.len() as u64
        + taken.sizes.len() as u64
        + taken.justice.len() as u64
        + taken.fair.len() as u64
}

// The gate at a place closes a cycle.
fn cycle_at(taken: &Taken, place: usize) -> AigRead
    requires bounded { IsBounded taken.now }
    requires place { place < length taken.now.gates }
    ensures { IsCycleAt result (gates_line taken.now + place) }
{
    let _gates = taken.gates.len();
    fault(gates_line(taken) + place as u64, 0, AigCode::Cycle)
}

// What the machine says.
fn judge(machine: Machine) -> AigRead
    requires fit { IsFit machine }
    ensures { IsDistinct (answer_now machine).gates → TellsAig result (answer_now machine) }
{
    match first_cycle(machine.alloc, machine.taken.gates.as_slice()) {
        Err(_) => AigRead::NoMemory,
        Ok(Some(place)) => cycle_at(&machine.taken, place),
        Ok(None) => answer_of(machine),
    }
}

/// What a machine read, at the end of the input.
#[tactic(auto, unfolding(crate::specs::Machine::answer))]
pub fn read_off(machine: Machine) -> AigRead
    requires fit { IsFit machine }
    ensures { IsDistinct (answer machine).gates → TellsAig result (answer machine) }
{
    let mut machine = machine;
    match end_last(&mut machine) {
        Ok(()) => judge(machine),
        Err(_) => AigRead::NoMemory,
    }
}
