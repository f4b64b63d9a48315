ghost use Rattle.std.specs.Prelude.{◌≡◌, ◌+◌, ◌/◌, ◌^◌, ◌<◌, ◌≤◌, ◌∷◌, ◌++◌, [], length, slice_set, count_by, ℕ, List, All, IfOk, OnOk, OnErr};
ghost use Rattle.gi_circuit.specs.Nodes.{node_values, and_in, is_gate, IsMade, next_edge};
ghost use Rattle.gi_circuit.specs.Import.{circuit_of};
ghost use Rattle.gi_circuit.specs.Importable.{IsImportable};
ghost use Rattle.gi_circuit.specs.Systems.{empty_system, IsCircuit, input_added, latch_added};

use crate::import::Importer;
use crate::net::Net;
use crate::node::Node;
use crate::values::Values;
use gi_aiger::{Aig, Reset, acyclic_places};
use gi_lit::Edge;
use std::alloc::{AllocError, Global};
use std::marker::Model;

/// A circuit: inputs, latches, hashed and-gates, and the edges that are outputs, bad states or constraints.
/// Nodes are numbered from 1 in the order of their making, so a gate stands after its operands. There are
/// fewer than 2^31. After an error it is as before.
#[derive(Drop)]
pub struct Circuit {
    net: Net,
    resets: Vec<Reset>,
    nexts: Vec<Edge>,
    outs: Vec<Edge>,
    bads: Vec<Edge>,
    cons: Vec<Edge>,
}

impl Model for Circuit {
    ghost use Rattle.gi_circuit.specs.Systems.{System, IsWired};

    ghost Value = { System };

    ghost view = { λ c. record { parts = c.net; resets = c.resets.items; nexts = c.nexts.items; outs = c.outs.items; bads = c.bads.items; cons = c.cons.items } };

    ghost invariant = { λ c. IsWired (record { parts = c.net; resets = c.resets.items; nexts = c.nexts.items; outs = c.outs.items; bads = c.bads.items; cons = c.cons.items }) };
}

/// How many of each a circuit has.
#[derive(Clone, Copy, Debug, PartialEq, Eq)]
pub struct Counts {
    pub inputs: u32,
    pub latches: u32,
    pub gates: u32,
    pub outs: u32,
    pub bads: u32,
    pub cons: u32,
}

impl Circuit {
    /// Without a node.
    pub fn new(alloc: Global) -> Circuit
        ensures { result ≡ empty_system }
    {
        Circuit {
            net: Net::new(alloc),
            resets: Vec::new(alloc),
            nexts: Vec::new(alloc),
            outs: Vec::new(alloc),
            bads: Vec::new(alloc),
            cons: Vec::new(alloc),
        }
    }

    /// A new input.
    pub fn input(&mut self) -> Result<Edge, AllocError>
        requires { length self.old.parts.nodes + 1 < 2 ^ 31 }
        ensures ok { OnOk result (self.new ≡ input_added self.old) }
        ensures edge { IfOk result (λ e. e ≡ next_edge self.old.parts) }
        ensures err { OnErr result (self.new ≡ self.old) }
    {
        self.net.input()
    }

    /// A new latch, which keeps its value until `set_next` gives it a next state.
    pub fn latch(&mut self, reset: Reset) -> Result<Edge, AllocError>
        requires { length self.old.parts.nodes + 1 < 2 ^ 31 }
        ensures ok { OnOk result (self.new ≡ latch_added self.old reset) }
        ensures edge { IfOk result (λ e. e ≡ next_edge self.old.parts) }
        ensures err { OnErr result (self.new ≡ self.old) }
    {
        self.resets.reserve(1)?;
        self.nexts.reserve(1)?;
        let edge = self.net.latch()?;
        self.resets.push_reserved(reset);
        self.nexts.push_reserved(edge);
        Ok(edge)
    }

    /// The conjunction of two edges, whose nodes must exist. It is a constant or one of them where that is
    /// plain (one is constant, both are the same, or one is the negation of the other), the gate of the two
    /// where there is one, and else a new gate.
    pub fn and(&mut self, a: Edge, b: Edge) -> Result<Edge, AllocError>
        requires first { a / 2 ≤ length self.old.parts.nodes }
        requires second { b / 2 ≤ length self.old.parts.nodes }
        requires room { length self.old.parts.nodes + 1 < 2 ^ 31 }
        ensures ok { IfOk result (IsMade self.old.parts self.new.parts (and_in self.old.parts.nodes a b)) }
        ensures within { IfOk result (λ e. e / 2 ≤ length self.new.parts.nodes) }
        ensures others { self.new ≡ record self.old { parts = self.new.parts } }
        ensures err { OnErr result (self.new ≡ self.old) }
    {
        self.net.and(a, b)
    }

    /// Gives the latch of a place, from 0, its next state. The latch and the node must exist.
    pub fn set_next(&mut self, latch: u32, next: Edge)
        requires place { latch < self.old.parts.latches }
        requires node { next / 2 ≤ length self.old.parts.nodes }
        ensures { self.new ≡ record self.old { nexts = slice_set self.old.nexts latch next } }
    {
        self.nexts[latch as usize] = next;
    }

    /// Makes an edge an output. Its node must exist.
    pub fn add_out(&mut self, e: Edge) -> Result<(), AllocError>
        requires node { e / 2 ≤ length self.old.parts.nodes }
        requires room { length self.old.outs + 1 < 2 ^ 32 }
        ensures ok { OnOk result (self.new ≡ record self.old { outs = self.old.outs ++ e ∷ [] }) }
        ensures err { OnErr result (self.new ≡ self.old) }
    {
        self.outs.push(e)?;
        Ok(())
    }

    /// Makes an edge a bad state. Its node must exist.
    pub fn add_bad(&mut self, e: Edge) -> Result<(), AllocError>
        requires node { e / 2 ≤ length self.old.parts.nodes }
        requires room { length self.old.bads + 1 < 2 ^ 32 }
        ensures ok { OnOk result (self.new ≡ record self.old { bads = self.old.bads ++ e ∷ [] }) }
        ensures err { OnErr result (self.new ≡ self.old) }
    {
        self.bads.push(e)?;
        Ok(())
    }

    /// Makes an edge a constraint. Its node must exist.
    pub fn add_con(&mut self, e: Edge) -> Result<(), AllocError>
        requires node { e / 2 ≤ length self.old.parts.nodes }
        requires room { length self.old.cons + 1 < 2 ^ 32 }
        ensures ok { OnOk result (self.new ≡ record self.old { cons = self.old.cons ++ e ∷ [] }) }
        ensures err { OnErr result (self.new ≡ self.old) }
    {
        self.cons.push(e)?;
        Ok(())
    }

    /// How many of each there are. What is said of circuits holds: gates stand behind their operands, no
    /// pair stands twice, and edges are of nodes that exist.
    pub fn counts(&self) -> Counts
        ensures counts { result ≡ record { inputs = self.now.parts.inputs; latches = self.now.parts.latches; gates = count_by is_gate self.now.parts.nodes; outs = length self.now.outs; bads = length self.now.bads; cons = length self.now.cons } }
        ensures circuit { IsCircuit self.now }
    {
        let size = self.net.size();
        Counts {
            inputs: size.inputs,
            latches: size.latches,
            gates: size.nodes - (size.inputs + size.latches),
            outs: self.outs.len() as u32,
            bads: self.bads.len() as u32,
            cons: self.cons.len() as u32,
        }
    }

    /// The nodes from 1 on, in the order of their making.
    pub fn nodes(&self) -> &[Node]
        ensures { result.now ≡ self.now.parts.nodes }
    {
        self.net.nodes()
    }

    /// The resets of the latches, by place.
    pub fn resets(&self) -> &[Reset]
        ensures { result.now ≡ self.now.resets }
    {
        self.resets.as_slice()
    }

    /// The next states of the latches, by place.
    pub fn nexts(&self) -> &[Edge]
        ensures { result.now ≡ self.now.nexts }
    {
        self.nexts.as_slice()
    }

    /// The outputs in order.
    pub fn outs(&self) -> &[Edge]
        ensures { result.now ≡ self.now.outs }
    {
        self.outs.as_slice()
    }

    /// The bad states in order.
    pub fn bads(&self) -> &[Edge]
        ensures { result.now ≡ self.now.bads }
    {
        self.bads.as_slice()
    }

    /// The constraints in order.
    pub fn cons(&self) -> &[Edge]
        ensures { result.now ≡ self.now.cons }
    {
        self.cons.as_slice()
    }

    /// The values of all nodes, where the inputs and the latches have these values, as many as `counts`
    /// tells.
    pub fn eval(
        &self,
        alloc: Global,
        inputs: &[bool],
        latches: &[bool],
    ) -> Result<Values, AllocError>
        requires inputs { length inputs.now ≡ self.now.parts.inputs }
        requires latches { length latches.now ≡ self.now.parts.latches }
        ensures values { IfOk result (λ v. v ≡ node_values inputs.now latches.now self.now.parts.nodes) }
        ensures len { IfOk result (λ v. length v ≡ length self.now.parts.nodes + 1) }
    {
        self.net.eval(alloc, inputs, latches)
    }

    /// Gives all latches their next states, and the circuit its outputs, bad states and constraints.
    pub(crate) fn wire(
        &mut self,
        nexts: Vec<Edge>,
        outs: Vec<Edge>,
        bads: Vec<Edge>,
        cons: Vec<Edge>,
    )
        requires count { length nexts.items ≡ self.old.parts.latches }
        requires nexts { All (λ e. e / 2 ≤ length self.old.parts.nodes) nexts.items }
        requires outs { All (λ e. e / 2 ≤ length self.old.parts.nodes) outs.items }
        requires bads { All (λ e. e / 2 ≤ length self.old.parts.nodes) bads.items }
        requires cons { All (λ e. e / 2 ≤ length self.old.parts.nodes) cons.items }
        requires outs_fit { length outs.items < 2 ^ 32 }
        requires bads_fit { length bads.items < 2 ^ 32 }
        requires cons_fit { length cons.items < 2 ^ 32 }
        ensures { self.new ≡ record self.old { nexts = nexts.items; outs = outs.items; bads = bads.items; cons = cons.items } }
    {
        self.nexts = nexts;
        self.outs = outs;
        self.bads = bads;
        self.cons = cons;
    }

    /// The circuit that an AIGER file says: inputs and latches in order, and then the gates by level and, within
    /// a level, in order. The level of a gate is one more than the greater level of its operands, and that of
    /// inputs, latches and constants is 0. A variable that nothing defines is false. There must be no cycle of
    /// gates, no variable that two gates define, none above `max`, and fewer than 2^31 inputs, latches and gates:
    /// so it is for each value that a file says (`good_is_importable`).
    pub fn from_aig(alloc: Global, aig: &Aig) -> Result<Circuit, AllocError>
        requires { IsImportable aig.now }
        ensures { IfOk result (λ c. c ≡ circuit_of aig.now) }
    {
        let literals = aig.inputs.listed(alloc)?;
        let gates = aig.gates.as_slice();
        let places = acyclic_places(alloc, gates)?;
        let mut importer = Importer::new(alloc, aig.max);
        importer.inputs(literals.as_slice())?;
        importer.latches(aig.latches.as_slice())?;
        importer.gates(gates, &places)?;
        importer.finish(alloc, aig)
    }
}
