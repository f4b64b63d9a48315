// What the inputs of a file define.
ghost use Rattle.std.specs.Prelude.{◌≡◌, ◌+◌, ◌<◌, ◌≤◌, ◌^◌, ◌∷◌, ◌++◌, [], length, slice_get, IfOk, OnOk, OnErr};
ghost use Rattle.gi_aiger.specs.Evens.{evens};

use crate::lists::Edges;
use gi_lit::Edge;
use std::alloc::{AllocError, Global};
use std::marker::Model;

/// The literals that inputs define. Those of the first variables, as the binary form has them, are known by their count alone, and
/// take no memory. Contracts see the list of all.
#[derive(Drop)]
pub struct Inputs {
    /// How many of them are the literals of the first variables in order.
    first: u32,
    /// Those behind them.
    others: Edges,
}

impl Model for Inputs {
    ghost use Rattle.std.specs.Prelude.{List, ℕ, ◌++◌, ◌<◌, ◌^◌};
    ghost use Rattle.gi_aiger.specs.Evens.{evens};

    ghost Value = { List ℕ };

    ghost view = { λ i. evens i.first ++ i.others };

    ghost invariant = { λ i. i.first < 2 ^ 31 };
}

impl Inputs {
    /// None. Takes no memory.
    #[tactic(auto, using(crate::proofs::Numbering::evens_none))]
    pub fn new(alloc: Global) -> Inputs
        ensures { result ≡ [] }
    {
        Inputs {
            first: 0,
            others: Edges::new(alloc),
        }
    }

    /// The literals of so many variables from the first on. Takes no memory.
    #[tactic(auto, using(crate::proofs::Numbering::evens_alone))]
    pub fn of_first(alloc: Global, count: u32) -> Inputs
        requires { count < 2 ^ 31 }
        ensures { result ≡ evens count }
    {
        Inputs {
            first: count,
            others: Edges::new(alloc),
        }
    }

    /// These literals. Takes no memory.
    #[tactic(auto, using(crate::proofs::Numbering::evens_none))]
    pub fn from_edges(edges: Edges) -> Inputs
        ensures { result ≡ edges }
    {
        Inputs {
            first: 0,
            others: edges,
        }
    }

    /// How many there are.
    #[tactic(auto, using(crate::proofs::Numbering::evens_count))]
    pub fn len(&self) -> usize
        ensures { result ≡ length self.now }
    {
        self.first as usize + self.others.as_slice().len()
    }

    /// The literal at a place, from 0. None exactly past the last one.
    #[tactic(auto, using(crate::proofs::Numbering::evens_first, crate::proofs::Numbering::evens_past))]
    pub fn get(&self, place: usize) -> Option<Edge>
        ensures { result ≡ slice_get self.now place }
    {
        let first = self.first as usize;
        if place < first {
            return Some(Edge::new(2 * (place as u32 + 1)));
        }
        self.others.get(place - first).copied()
    }

    /// Puts a literal behind the last one. A refused push changes nothing.
    #[tactic(auto, using(crate::proofs::Numbering::evens_push))]
    pub fn push(&mut self, edge: Edge) -> Result<(), AllocError>
        ensures ok { OnOk result (self.new ≡ self.old ++ edge ∷ []) }
        ensures err { OnErr result (self.new ≡ self.old) }
    {
        self.others.push(edge)?;
        Ok(())
    }

    /// All of them, one after another. Takes memory for each.
    pub fn listed(&self, alloc: Global) -> Result<Edges, AllocError>
        ensures { IfOk result (λ edges. edges ≡ self.now) }
    {
        let mut all = first_edges(alloc, self.first)?;
        all.extend_from_slice(self.others.as_slice())?;
        Ok(Edges::from_vec(all))
    }
}

// The literals of so many variables from the first on.
#[tactic(auto, unfolding(crate::specs::Evens::evens))]
fn first_edges(alloc: Global, count: u32) -> Result<Vec<Edge>, AllocError>
    requires { count < 2 ^ 31 }
    ensures { IfOk result (λ edges. edges.items ≡ evens count) }
{
    let mut edges = Vec::new(alloc);
    for i in 0..count {
        edges.push(Edge::new(2 * (i + 1)))?;
    }
    Ok(edges)
}
