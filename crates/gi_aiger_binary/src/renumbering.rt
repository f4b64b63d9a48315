// Values with their variables numbered anew.
ghost use Rattle.std.specs.Prelude.{◌≡◌, ◌+◌, ◌/◌, ◌<◌, ◌≤◌, ◌^◌, ℕ, length, map, IfOk};
ghost use Rattle.gi_aiger.specs.Levels.{HasLevels, IsDistinct};
ghost use Rattle.gi_aiger.specs.Tables.{value_of};
ghost use Rattle.gi_aiger_binary.specs.Renumbering.{gate_by, in_order, latch_by, literal_by, numbered_anew, numbered_by};
ghost use Rattle.gi_aiger_binary.specs.Sound.{IsWritable};

use crate::numbers::{numbers_of, variables_of};
use gi_aiger::{
    Aig, AndGate, EdgeLists, Edges, Gates, Inputs, Latch, Latches, Symbol, Symbols, Table,
    acyclic_places,
};
use gi_lit::Edge;
use gi_text::Bytes;
use std::alloc::{AllocError, Global};

fn literal(numbers: &Table<u32>, edge: Edge) -> Edge
    requires { (x : ℕ) → value_of numbers.now x < 2 ^ 31 }
    ensures { result ≡ literal_by (value_of numbers.now) edge }
{
    let number = numbers.get(edge.node());
    Edge::new(2 * number + edge.code() % 2)
}

fn latch(numbers: &Table<u32>, latch: Latch) -> Latch
    requires { (x : ℕ) → value_of numbers.now x < 2 ^ 31 }
    ensures { result ≡ latch_by (value_of numbers.now) latch }
{
    Latch {
        lit: literal(numbers, latch.lit),
        next: literal(numbers, latch.next),
        reset: latch.reset,
    }
}

fn gate(numbers: &Table<u32>, gate: AndGate) -> AndGate
    requires { (x : ℕ) → value_of numbers.now x < 2 ^ 31 }
    ensures { result ≡ gate_by (value_of numbers.now) gate }
{
    let left = literal(numbers, gate.rhs0).code();
    let right = literal(numbers, gate.rhs1).code();
    let (greater, lesser) = (left.max(right), left.min(right));
    AndGate {
        lhs: literal(numbers, gate.lhs),
        rhs0: Edge::new(greater),
        rhs1: Edge::new(lesser),
    }
}

fn edges(alloc: Global, numbers: &Table<u32>, edges: &[Edge]) -> Result<Edges, AllocError>
    requires { (x : ℕ) → value_of numbers.now x < 2 ^ 31 }
    ensures { IfOk result (λ out. out ≡ map (literal_by (value_of numbers.now)) edges.now) }
{
    let out: Vec<Edge> = edges
        .iter()
        .map(|edge| literal(numbers, *edge))
        .collect(alloc)?;
    Ok(Edges::from_vec(out))
}

fn inputs(alloc: Global, numbers: &Table<u32>, inputs: &Inputs) -> Result<Inputs, AllocError>
    requires { (x : ℕ) → value_of numbers.now x < 2 ^ 31 }
    ensures { IfOk result (λ out. out ≡ map (literal_by (value_of numbers.now)) inputs.now) }
{
    let literals = inputs.listed(alloc)?;
    let out = edges(alloc, numbers, literals.as_slice())?;
    Ok(Inputs::from_edges(out))
}

fn latches(alloc: Global, numbers: &Table<u32>, latches: &[Latch]) -> Result<Latches, AllocError>
    requires { (x : ℕ) → value_of numbers.now x < 2 ^ 31 }
    ensures { IfOk result (λ out. out ≡ map (latch_by (value_of numbers.now)) latches.now) }
{
    let mut out = Latches::new(alloc);
    for item in latches {
        out.push(latch(numbers, *item))?;
    }
    Ok(out)
}

fn gates(alloc: Global, numbers: &Table<u32>, gates: &[AndGate]) -> Result<Gates, AllocError>
    requires { (x : ℕ) → value_of numbers.now x < 2 ^ 31 }
    ensures { IfOk result (λ out. out ≡ map (gate_by (value_of numbers.now)) gates.now) }
{
    let mut out = Gates::new(alloc);
    for item in gates {
        out.push(gate(numbers, *item))?;
    }
    Ok(out)
}

fn lists(alloc: Global, numbers: &Table<u32>, lists: &[Edges]) -> Result<EdgeLists, AllocError>
    requires { (x : ℕ) → value_of numbers.now x < 2 ^ 31 }
    ensures { IfOk result (λ out. out ≡ map (map (literal_by (value_of numbers.now))) lists.now) }
{
    let mut out = EdgeLists::new(alloc);
    for list in lists {
        out.push(edges(alloc, numbers, list.as_slice())?)?;
    }
    Ok(out)
}

fn symbol_again(alloc: Global, symbol: &Symbol) -> Result<Symbol, AllocError>
    ensures { IfOk result (λ again. again ≡ symbol.now) }
{
    Ok(Symbol {
        kind: symbol.kind,
        place: symbol.place,
        name: Bytes::of(alloc, symbol.name.as_slice())?,
    })
}

fn symbols_again(alloc: Global, symbols: &[Symbol]) -> Result<Symbols, AllocError>
    ensures { IfOk result (λ again. again ≡ symbols.now) }
{
    let mut out = Symbols::new(alloc);
    for symbol in symbols {
        out.push(symbol_again(alloc, symbol)?)?;
    }
    Ok(out)
}

fn comment_again(alloc: Global, comment: &Option<Bytes>) -> Result<Option<Bytes>, AllocError>
    ensures { IfOk result (λ again. again ≡ comment.now) }
{
    match comment {
        None => Ok(None),
        Some(text) => Ok(Some(Bytes::of(alloc, text.as_slice())?)),
    }
}

// The gates by level, and within a level in their order.
fn in_order(alloc: Global, gates: &[AndGate]) -> Result<Vec<AndGate>, AllocError>
    requires apart { IsDistinct gates.now }
    requires acyclic { HasLevels gates.now }
    ensures { IfOk result (λ ordered. ordered.items ≡ in_order gates.now) }
{
    let places = acyclic_places(alloc, gates)?;
    let mut ordered = Vec::new(alloc);
    for place in &places {
        ordered.push(gates[*place])?;
    }
    Ok(ordered)
}

// The value with these numbers for its variables, so many of them, and its gates in this order.
fn numbered(
    alloc: Global,
    numbers: &Table<u32>,
    max: u32,
    aig: &Aig,
    ordered: &[AndGate],
) -> Result<Aig, AllocError>
    requires { (x : ℕ) → value_of numbers.now x < 2 ^ 31 }
    ensures { IfOk result (λ w. w ≡ numbered_by (value_of numbers.now) max aig.now ordered.now) }
{
    let inputs = inputs(alloc, numbers, &aig.inputs)?;
    let latches = latches(alloc, numbers, aig.latches.as_slice())?;
    let outs = edges(alloc, numbers, aig.outs.as_slice())?;
    let bads = edges(alloc, numbers, aig.bads.as_slice())?;
    let cons = edges(alloc, numbers, aig.cons.as_slice())?;
    let justice = lists(alloc, numbers, aig.justice.as_slice())?;
    let fair = edges(alloc, numbers, aig.fair.as_slice())?;
    let gates = gates(alloc, numbers, ordered)?;
    let symbols = symbols_again(alloc, aig.symbols.as_slice())?;
    let comment = comment_again(alloc, &aig.comment)?;
    Ok(Aig {
        max,
        inputs,
        latches,
        outs,
        bads,
        cons,
        justice,
        fair,
        gates,
        symbols,
        comment,
    })
}

/// The same value with its variables numbered from 1: inputs in order, then latches in order, then
/// gates by level and within a level in their order. A gate's level is one more than the greater
/// level of its operands; what no gate defines has level 0. The greatest variable is the last one,
/// a gate's greater operand comes first, and a variable that nothing defines becomes constant
/// false. There must be no cycle of gates, no variable that two gates define, and fewer than 2^31
/// inputs, latches and gates together; each value that was read is so (`good_is_writable`). Room is
/// taken for what the lists hold, whatever `max` is.
pub fn renumber(alloc: Global, aig: &Aig) -> Result<Aig, AllocError>
    requires { IsWritable aig.now }
    ensures { IfOk result (λ w. w ≡ numbered_anew aig.now) }
{
    let ordered = in_order(alloc, aig.gates.as_slice())?;
    let variables = variables_of(alloc, aig, &ordered)?;
    let numbers = numbers_of(alloc, &variables)?;
    numbered(alloc, &numbers, variables.len() as u32, aig, &ordered)
}
