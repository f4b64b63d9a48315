// Gates as nodes: the places of their operands.
ghost use Rattle.std.specs.Prelude.{◌≡◌, ◌<◌, ℕ, length, All, IfOk, IfSome, MatchOption};
ghost use Rattle.gi_aiger.specs.Levels.{HasLevels, ClosesCycle, IsDistinct};
ghost use Rattle.gi_aiger.specs.Places.{ArePlaces, places_by_level, Resolves};
ghost use Rattle.gi_aiger.specs.Tables.{value_of};

use crate::aig::AndGate;
use crate::table::Table;
use gi_levels::{Node, by_level};
use std::alloc::{AllocError, Global};

// The places of the gates that define variables; how many gates there are for other variables.
#[tactic(auto, using(crate::proofs::Resolving::no_places, crate::proofs::Resolving::more_places))]
fn places_of(alloc: Global, gates: &[AndGate]) -> Result<Table<usize>, AllocError>
    ensures { IfOk result (λ places. ArePlaces gates.now (length gates.now) (value_of places)) }
{
    let mut places = Table::new(alloc, gates.len());
    for (place, gate) in gates.iter().enumerate() {
        places.put(gate.lhs.node(), place)?;
    }
    Ok(places)
}

// The gates with the places of their operands.
#[tactic(auto, using(crate::proofs::Resolving::one_node))]
fn nodes_of(alloc: Global, gates: &[AndGate]) -> Result<Vec<Node>, AllocError>
    ensures { IfOk result (λ nodes. Resolves gates.now nodes.items) }
{
    let places = places_of(alloc, gates)?;
    let mut nodes = Vec::new(alloc);
    for gate in gates {
        nodes.push(Node {
            left: places.get(gate.rhs0.node()),
            right: places.get(gate.rhs1.node()),
        })?;
    }
    Ok(nodes)
}

/// The place of the gate that closes the first cycle, if there is one; where no two define the same variable.
pub fn first_cycle(alloc: Global, gates: &[AndGate]) -> Result<Option<usize>, AllocError>
    ensures within { IfOk result (λ found. IfSome found (λ place. place < length gates.now)) }
    ensures cycle { IsDistinct gates.now → IfOk result (λ found. MatchOption found (HasLevels gates.now) (ClosesCycle gates.now)) }
{
    let nodes = nodes_of(alloc, gates)?;
    gi_levels::first_cycle(alloc, nodes.as_slice())
}

/// The places of the gates by level, and within a level in their order; no two gates may define the same variable. None exactly
/// where they have a cycle.
pub fn places_by_level(alloc: Global, gates: &[AndGate]) -> Result<Option<Vec<usize>>, AllocError>
    requires { IsDistinct gates.now }
    ensures { IfOk result (λ found. MatchOption found (HasLevels gates.now → ⊥) (λ places. places.items ≡ places_by_level gates.now)) }
{
    let nodes = nodes_of(alloc, gates)?;
    by_level(alloc, nodes.as_slice())
}

/// The places of gates without cycles, in the same order. No two may define the same variable.
pub fn acyclic_places(alloc: Global, gates: &[AndGate]) -> Result<Vec<usize>, AllocError>
    requires apart { IsDistinct gates.now }
    requires acyclic { HasLevels gates.now }
    ensures order { IfOk result (λ places. places.items ≡ places_by_level gates.now) }
    ensures inside { IfOk result (λ places. All (λ k. k < length gates.now) places.items) }
{
    match places_by_level(alloc, gates)? {
        Some(places) => Ok(places),
        None => unreachable!(),
    }
}
