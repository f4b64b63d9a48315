//! What frames make: the shared circuit, its literals, and the clauses of the frame that is being
//! made.
ghost use Rattle.std.specs.Prelude.{◌≡◌, ◌==◌, ◌+◌, ◌-◌, ◌*◌, ◌/◌, ◌<◌, ◌≤◌, ◌∷◌, ◌++◌, [], length, take, map, fold, count_by, All, IfOk, OnOk, OnErr, if◌then◌else◌};
ghost use Rattle.gi_circuit.specs.Nodes.{IsPlaced, IsOrdered, AreNodesSound, is_gate};
ghost use Rattle.gi_circuit.specs.Frames.{Draft, lit_of, edge_of, with_choice, with_gate, with_node, input_along, reset_along, draft_of};
ghost use Rattle.gi_unroll.specs.Steps.{empty_draft, parts_of, frames_of, along, defined, IsReady, HasEdges, IsLonger};
ghost use Rattle.gi_lit.specs.Literals.{max_var};

use crate::clauses::{push_gate, push_unit, variable};
use gi_aiger::Reset;
use gi_circuit::{Net, Node, Size};
use gi_lit::{Clauses, Edge, Lit, Lits};
use std::alloc::{AllocError, Global};
use std::marker::Model;
use std::mem;

/// The circuit that all frames share, with the literal of each node, and what the frame that is
/// being made has so far: the next variable, its clauses, and the edge of each node of the circuit
/// in the shared one.
#[derive(Drop)]
pub(crate) struct Builder {
    alloc: Global,
    net: Net,
    lits: Vec<Lit>,
    next: u32,
    clauses: Clauses,
    edges: Vec<Edge>,
}

impl Model for Builder {
    ghost use Rattle.std.specs.Prelude.{◌≡◌};
    ghost use Rattle.gi_circuit.specs.Frames.{Draft};

    ghost Value = { Draft };

    ghost view = { λ b. record {
      net = b.net.nodes;
      choices = b.net.inputs;
      lits = b.lits.items;
      next = b.next;
      clauses = b.clauses;
      edges = b.edges.items;
    } };

    ghost invariant = { λ b. b.net.latches ≡ 0 };
}

/// How much the shared circuit has, and how many literals there are.
#[derive(Clone, Copy)]
pub(crate) struct Extent {
    pub net: Size,
    pub lits: usize,
}

impl Builder {
    pub(crate) fn new(alloc: Global) -> Builder
        ensures { result ≡ empty_draft }
    {
        Builder {
            alloc,
            net: Net::new(alloc),
            lits: Vec::new(alloc),
            next: 0,
            clauses: Clauses::new(alloc),
            edges: Vec::new(alloc),
        }
    }

    /// How much there is.
    pub(crate) fn extent(&self) -> Extent
        ensures sound { AreNodesSound (parts_of self.now) }
        ensures extent { result ≡ record {
          net = record {
            inputs = self.now.choices;
            latches = 0;
            nodes = length self.now.net;
          };
          lits = length self.now.lits;
        } }
    {
        Extent {
            net: self.net.size(),
            lits: self.lits.len(),
        }
    }

    /// Takes back what was made since there was this much.
    pub(crate) fn cut(&mut self, extent: Extent)
        requires latches { extent.net.latches ≡ 0 }
        requires sound { AreNodesSound
            (record {
              inputs = extent.net.inputs;
              latches = extent.net.latches;
              nodes = take extent.net.nodes self.old.net;
            }) }
        ensures net { self.new.net ≡ take extent.net.nodes self.old.net }
        ensures choices { self.new.choices ≡ extent.net.inputs }
        ensures lits { self.new.lits ≡ take extent.lits self.old.lits }
    {
        self.net.truncate(extent.net);
        self.lits.truncate(extent.lits);
    }

    /// The next variable that is free.
    pub(crate) fn next(&self) -> u32
        ensures { result ≡ self.now.next }
    {
        self.next
    }

    /// Takes the clauses out.
    pub(crate) fn take_clauses(&mut self) -> Clauses
        ensures clauses { result ≡ self.old.clauses }
        ensures rest { self.new ≡ record self.old { clauses = [] } }
    {
        mem::replace(&mut self.clauses, Clauses::new(self.alloc))
    }

    /// Begins a frame after `made` others whose variables are n and above.
    pub(crate) fn begin(&mut self, made: u32, n: u32) -> Result<(), AllocError>
        requires low { 1 ≤ n }
        requires high { n ≤ max_var }
        requires start { made ≡ 0 → (self.old.net ≡ []) × (self.old.lits ≡ []) }
        ensures ok { OnOk result (self.new ≡ draft_of (frames_of self.old [] made) n) }
        ensures err { OnErr result (IsLonger self.old self.new) }
    {
        self.clauses = Clauses::new(self.alloc);
        self.edges.clear();
        self.edges.push(Edge::new(0))?;
        self.next = n;
        if made == 0 {
            self.begin_first()
        } else {
            Ok(())
        }
    }

    /// The variable that is true.
    fn begin_first(&mut self) -> Result<(), AllocError>
        requires low { 1 ≤ self.old.next }
        requires high { self.old.next ≤ max_var }
        ensures ok { OnOk result (self.new ≡ record self.old {
          lits = self.old.lits
              ++ (2 * self.old.next + 1) ∷ [];
          next = self.old.next + 1;
          clauses = self.old.clauses ++ (2 * self.old.next ∷ []) ∷ [];
        }) }
        ensures err { OnErr result
            ((self.new.net ≡ self.old.net) × (self.new.lits ≡ self.old.lits)) }
    {
        let always = variable(self.next);
        push_unit(self.alloc, &mut self.clauses, always.positive())?;
        self.lits.push(always.negative())?;
        self.next += 1;
        Ok(())
    }

    /// A choice more, which takes a variable.
    fn choice(&mut self) -> Result<Edge, AllocError>
        requires ready { IsReady self.old }
        requires room { self.old.next ≤ max_var }
        ensures ok { OnOk result (self.new ≡ with_choice self.old) }
        ensures edge { IfOk result (λ e. e ≡ 2 * (length self.old.net + 1)) }
        ensures err { OnErr result (self.new ≡ self.old) }
    {
        let lit = variable(self.next).positive();
        self.lits.reserve(1)?;
        let edge = self.net.input()?;
        self.lits.push_reserved(lit);
        self.next += 1;
        Ok(edge)
    }

    /// The literal of an edge of the shared circuit.
    fn lit(&self, e: Edge) -> Lit
        requires { e / 2 < length self.now.lits }
        ensures { result ≡ lit_of self.now.lits e }
    {
        let lit = self.lits[e.node() as usize];
        if e.is_negative() { lit.not() } else { lit }
    }

    /// An edge of the circuit in the shared one.
    fn edge(&self, e: Edge) -> Edge
        requires { e / 2 < length self.now.edges }
        ensures { result ≡ edge_of self.now.edges e }
    {
        let edge = self.edges[e.node() as usize];
        if e.is_negative() { edge.not() } else { edge }
    }

    /// The conjunction of two edges of the shared circuit. Only a new gate takes a variable.
    fn gate(&mut self, a: Edge, b: Edge) -> Result<(), AllocError>
        requires ready { IsReady self.old }
        requires room { self.old.next ≤ max_var }
        requires first { a / 2 ≤ length self.old.net }
        requires second { b / 2 ≤ length self.old.net }
        ensures ok { OnOk result (self.new ≡ with_gate self.old a b) }
        ensures err { OnErr result (IsLonger self.old self.new) }
    {
        let nodes = self.net.size().nodes;
        let edge = self.net.and(a, b)?;
        self.define(nodes, a, b)?;
        self.put(edge)
    }

    /// The variable of the gate of two edges, with its clauses, if it was just made: if there are
    /// more nodes than before.
    fn define(&mut self, before: u32, a: Edge, b: Edge) -> Result<(), AllocError>
        requires low { 1 ≤ self.old.next }
        requires room { self.old.next ≤ max_var }
        requires first { a / 2 < length self.old.lits }
        requires second { b / 2 < length self.old.lits }
        ensures ok { OnOk result (self.new ≡ (if length self.old.net == before then self.old
            else defined self.old a b)) }
        ensures err { OnErr result
            ((self.new.net ≡ self.old.net) × (self.new.lits ≡ self.old.lits)) }
    {
        if self.net.size().nodes == before {
            return Ok(());
        }
        let x = variable(self.next).positive();
        let (low, high) = if a.code() < b.code() { (a, b) } else { (b, a) };
        let (low, high) = (self.lit(low), self.lit(high));
        push_gate(self.alloc, &mut self.clauses, x, low, high)?;
        self.lits.push(x)?;
        self.next += 1;
        Ok(())
    }

    /// A node of the circuit, over the edges of its inputs and latches in the shared one.
    fn node(&mut self, node: Node, inputs: &[Edge], latches: &[Edge]) -> Result<(), AllocError>
        requires ready { IsReady self.old }
        requires room { self.old.next + (if is_gate node then 1 else 0) ≤ max_var + 1 }
        requires some { 1 ≤ length self.old.edges }
        requires edges { All (λ e. e / 2 ≤ length self.old.net) self.old.edges }
        requires placed { IsPlaced (length inputs.now) (length latches.now)
            (length self.old.edges - 1) node }
        ensures ok { OnOk result (self.new ≡ with_node inputs.now latches.now self.old node) }
        ensures err { OnErr result (IsLonger self.old self.new) }
    {
        match node {
            Node::Input(place) => self.put(inputs[place as usize]),
            Node::Latch(place) => self.put(latches[place as usize]),
            Node::Gate(a, b) => self.gate(self.edge(a), self.edge(b)),
        }
    }

    /// The edge of the next node of the circuit.
    fn put(&mut self, e: Edge) -> Result<(), AllocError>
        ensures ok { OnOk result (self.new ≡ record self.old { edges = self.old.edges ++ e ∷ [] }) }
        ensures err { OnErr result (IsLonger self.old self.new) }
    {
        self.edges.push(e)?;
        Ok(())
    }

    /// All nodes of the circuit, over the edges of its inputs and latches in the shared one.
    pub(crate) fn rebuild(
        &mut self,
        nodes: &[Node],
        inputs: &[Edge],
        latches: &[Edge],
    ) -> Result<(), AllocError>
        requires ready { IsReady self.old }
        requires room { self.old.next + count_by is_gate nodes.now ≤ max_var + 1 }
        requires edges { HasEdges 0 self.old }
        requires ordered { IsOrdered
            (record {
              inputs = length inputs.now;
              latches = length latches.now;
              nodes = nodes.now;
            }) }
        requires inputs { All (λ e. e / 2 ≤ length self.old.net) inputs.now }
        requires latches { All (λ e. e / 2 ≤ length self.old.net) latches.now }
        ensures ok { OnOk result (self.new ≡ fold (with_node inputs.now latches.now) self.old
            nodes.now) }
        ensures err { OnErr result (IsLonger self.old self.new) }
    {
        for node in nodes {
            self.node(*node, inputs, latches)?;
        }
        Ok(())
    }

    /// The edges of a frame's inputs, which are choices.
    pub(crate) fn inputs(&mut self, count: u32) -> Result<Vec<Edge>, AllocError>
        requires ready { IsReady self.old }
        requires room { self.old.next + count ≤ max_var + 1 }
        ensures ok { IfOk result (λ es. along self.new es.items
            ≡ input_along count (along self.old [])) }
        ensures err { OnErr result (IsLonger self.old self.new) }
    {
        let mut edges = Vec::new(self.alloc);
        'choices: for _made in 0..count {
            let edge = self.choice()?;
            edges.push(edge)?;
        }
        Ok(edges)
    }

    /// The edge of a latch at first.
    fn reset(&mut self, reset: Reset, edges: &mut Vec<Edge>) -> Result<(), AllocError>
        requires ready { IsReady self.old }
        requires room { self.old.next ≤ max_var }
        ensures ok { OnOk result (along self.new edges.new.items
            ≡ reset_along (along self.old edges.old.items) reset) }
        ensures err { OnErr result (IsLonger self.old self.new) }
    {
        let edge = match reset {
            Reset::Zero => Edge::new(0),
            Reset::One => Edge::new(1),
            Reset::Free => self.choice()?,
        };
        edges.push(edge)?;
        Ok(())
    }

    /// The edges of the latches at first: constants, and choices for the free ones.
    pub(crate) fn resets(&mut self, resets: &[Reset]) -> Result<Vec<Edge>, AllocError>
        requires ready { IsReady self.old }
        requires room { self.old.next + length resets.now ≤ max_var + 1 }
        ensures ok { IfOk result (λ es. along self.new es.items
            ≡ fold reset_along (along self.old []) resets.now) }
        ensures err { OnErr result (IsLonger self.old self.new) }
    {
        let mut edges = Vec::new(self.alloc);
        for reset in resets {
            self.reset(*reset, &mut edges)?;
        }
        Ok(edges)
    }

    /// The same edges again.
    pub(crate) fn copy(&self, edges: &[Edge]) -> Result<Vec<Edge>, AllocError>
        ensures { IfOk result (λ es. es.items ≡ edges.now) }
    {
        edges.to_vec(self.alloc)
    }

    /// Edges of the circuit in the shared one.
    pub(crate) fn edges_of(&self, edges: &[Edge]) -> Result<Vec<Edge>, AllocError>
        requires { All (λ e. e / 2 < length self.now.edges) edges.now }
        ensures { IfOk result (λ es. es.items ≡ map (edge_of self.now.edges) edges.now) }
    {
        edges.iter().map(|e| self.edge(*e)).collect(self.alloc)
    }

    /// The literals of edges of the shared circuit.
    pub(crate) fn lits_of(&self, edges: &[Edge]) -> Result<Lits, AllocError>
        requires { All (λ e. e / 2 < length self.now.lits) edges.now }
        ensures { IfOk result (λ ls. ls ≡ map (lit_of self.now.lits) edges.now) }
    {
        let lits = edges.iter().map(|e| self.lit(*e)).collect(self.alloc)?;
        Ok(Lits::from_vec(lits))
    }
}
