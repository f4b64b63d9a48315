//! A circuit from what an AIGER file says.
ghost use Rattle.std.specs.Prelude.{◌≡◌, ◌+◌, ◌/◌, ◌^◌, ◌<◌, ◌≤◌, ℕ, length, map, fold, slice_index, slice_set, All, IfOk, OnOk};
ghost use Rattle.gi_aiger.specs.declared.aig.Latch.{Latch};
ghost use Rattle.gi_circuit.specs.Frames.{edge_of};
ghost use Rattle.gi_circuit.specs.Import.{Imported, imported_none, with_input_of, with_latch_of, with_gate_of, finished};
ghost use Rattle.gi_aiger.specs.Levels.{gate_at};

use crate::circuit::Circuit;
use crate::found::Found;
use gi_aiger::{Aig, AndGate, Latch};
use gi_lit::Edge;
use std::alloc::{AllocError, Global};
use std::marker::Model;

/// A circuit in the making, and the edge of each variable that is defined so far. Other variables are false.
#[derive(Drop)]
pub(crate) struct Importer {
    circuit: Circuit,
    edges: Found,
}

impl Model for Importer {
    ghost use Rattle.std.specs.Prelude.{All, ◌/◌, ◌≤◌, length};
    ghost use Rattle.gi_circuit.specs.Import.{Imported};

    ghost Value = { Imported };

    ghost view = { λ m. record { system = m.circuit; edges = m.edges } };

    ghost invariant = { λ m. All (λ e. e / 2 ≤ length m.circuit.parts.nodes) m.edges };
}

impl Importer {
    pub(crate) fn new(alloc: Global, max: u32) -> Importer
        ensures { result ≡ imported_none max }
    {
        Importer {
            circuit: Circuit::new(alloc),
            edges: Found::new(alloc, max as usize + 1),
        }
    }

    /// What stands for an edge of the file.
    fn edge(&self, e: Edge) -> Edge
        ensures value { result ≡ edge_of self.now.edges e }
        ensures within { result / 2 ≤ length self.now.system.parts.nodes }
    {
        let edge = self.found(e.node());
        if e.is_negative() { edge.not() } else { edge }
    }

    /// What stands for a variable.
    fn found(&self, v: u32) -> Edge
        ensures value { result ≡ slice_index self.now.edges v }
        ensures within { result / 2 ≤ length self.now.system.parts.nodes }
    {
        self.edges.get(v)
    }

    /// Notes what stands for the variable of a literal.
    fn define(&mut self, literal: Edge, edge: Edge) -> Result<(), AllocError>
        requires { edge / 2 ≤ length self.old.system.parts.nodes }
        ensures { OnOk result (self.new ≡ record self.old { edges = slice_set self.old.edges (literal / 2) edge }) }
    {
        self.edges.put(literal.node(), edge)?;
        Ok(())
    }

    fn input(&mut self, literal: Edge) -> Result<(), AllocError>
        requires { length self.old.system.parts.nodes + 1 < 2 ^ 31 }
        ensures { OnOk result (self.new ≡ with_input_of self.old literal) }
    {
        let edge = self.circuit.input()?;
        self.define(literal, edge)?;
        Ok(())
    }

    fn latch(&mut self, latch: Latch) -> Result<(), AllocError>
        requires { length self.old.system.parts.nodes + 1 < 2 ^ 31 }
        ensures { OnOk result (self.new ≡ with_latch_of self.old latch) }
    {
        let edge = self.circuit.latch(latch.reset)?;
        self.define(latch.lit, edge)?;
        Ok(())
    }

    fn gate(&mut self, gate: AndGate) -> Result<(), AllocError>
        requires { length self.old.system.parts.nodes + 1 < 2 ^ 31 }
        ensures { OnOk result (self.new ≡ with_gate_of self.old gate) }
    {
        let (a, b) = (self.edge(gate.rhs0), self.edge(gate.rhs1));
        let edge = self.circuit.and(a, b)?;
        self.define(gate.lhs, edge)?;
        Ok(())
    }

    /// All inputs in order.
    pub(crate) fn inputs(&mut self, literals: &[Edge]) -> Result<(), AllocError>
        requires { length self.old.system.parts.nodes + length literals.now < 2 ^ 31 }
        ensures { OnOk result (self.new ≡ fold with_input_of self.old literals.now) }
    {
        for literal in literals {
            self.input(*literal)?;
        }
        Ok(())
    }

    /// All latches in order.
    pub(crate) fn latches(&mut self, latches: &[Latch]) -> Result<(), AllocError>
        requires { length self.old.system.parts.nodes + length latches.now < 2 ^ 31 }
        ensures { OnOk result (self.new ≡ fold with_latch_of self.old latches.now) }
    {
        for latch in latches {
            self.latch(*latch)?;
        }
        Ok(())
    }

    /// The gates at places, in the order of these.
    pub(crate) fn gates(&mut self, gates: &[AndGate], places: &[usize]) -> Result<(), AllocError>
        requires room { length self.old.system.parts.nodes + length places.now < 2 ^ 31 }
        requires inside { All (λ (k : ℕ). k < length gates.now) places.now }
        ensures { OnOk result (self.new ≡ fold (λ m (k : ℕ). with_gate_of m (gate_at gates.now k)) self.old places.now) }
    {
        for place in places {
            self.gate(gates[*place])?;
        }
        Ok(())
    }

    /// What stands for edges of the file.
    fn edges_of(&self, alloc: Global, edges: &[Edge]) -> Result<Vec<Edge>, AllocError>
        ensures { IfOk result (λ es. es.items ≡ map (edge_of self.now.edges) edges.now) }
    {
        edges.iter().map(|e| self.edge(*e)).collect(alloc)
    }

    /// What stands for the next states of latches.
    fn nexts_of(&self, alloc: Global, latches: &[Latch]) -> Result<Vec<Edge>, AllocError>
        ensures { IfOk result (λ es. es.items ≡ map (λ (l : Latch). edge_of self.now.edges l.next) latches.now) }
    {
        latches.iter().map(|l| self.edge(l.next)).collect(alloc)
    }

    /// The circuit, with next states, outputs, bad states and constraints.
    pub(crate) fn finish(self, alloc: Global, aig: &Aig) -> Result<Circuit, AllocError>
        requires latches { length aig.now.latches ≡ self.system.parts.latches }
        requires outs { length aig.now.outs < 2 ^ 32 }
        requires bads { length aig.now.bads < 2 ^ 32 }
        requires cons { length aig.now.cons < 2 ^ 32 }
        ensures { IfOk result (λ c. c ≡ finished self aig.now) }
    {
        let nexts = self.nexts_of(alloc, aig.latches.as_slice())?;
        let outs = self.edges_of(alloc, aig.outs.as_slice())?;
        let bads = self.edges_of(alloc, aig.bads.as_slice())?;
        let cons = self.edges_of(alloc, aig.cons.as_slice())?;
        let mut circuit = self.circuit;
        circuit.wire(nexts, outs, bads, cons);
        Ok(circuit)
    }
}
