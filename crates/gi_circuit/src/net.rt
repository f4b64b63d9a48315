ghost use Rattle.std.specs.Prelude.{◌≡◌, ◌+◌, ◌/◌, ◌^◌, ◌<◌, ◌≤◌, length, take, IfOk, OnOk, OnErr};
ghost use Rattle.gi_circuit.specs.Nodes.{Parts, no_parts, AreNodesSound, node_values, and_in, IsMade, with_input, with_latch, next_edge};

use crate::fold::{fold, ordered};
use crate::node::{Node, Pair};
use crate::values::{Values, node_value};
use gi_lit::Edge;
use indexmap::IndexMap;
use std::alloc::{AllocError, Global};
use std::marker::Model;

/// Inputs, latches and and-gates. A gate is made once for each pair of edges and found again from then on.
/// Contracts see the numbers of inputs and latches, and the list of the nodes from 1 on.
#[derive(Drop)]
pub struct Net {
    inputs: u32,
    latches: u32,
    nodes: Vec<Node>,
    pairs: IndexMap<Pair, u32>,
}

impl Model for Net {
    ghost use Rattle.std.specs.Prelude.{◌≡◌};
    ghost use Rattle.gi_circuit.specs.Nodes.{Parts, AreNodesSound, entries_from};

    ghost Value = { Parts };

    ghost view = { λ c. record { inputs = c.inputs; latches = c.latches; nodes = c.nodes.items } };

    ghost invariant = { λ c. AreNodesSound (record { inputs = c.inputs; latches = c.latches; nodes = c.nodes.items }) × (c.pairs.entries ≡ entries_from 1 c.nodes.items) };
}

/// How many inputs, latches and nodes there are.
#[derive(Clone, Copy, Debug)]
pub struct Size {
    pub inputs: u32,
    pub latches: u32,
    pub nodes: u32,
}

impl Net {
    /// Without a node.
    pub fn new(alloc: Global) -> Net
        ensures { result ≡ no_parts }
    {
        Net {
            inputs: 0,
            latches: 0,
            nodes: Vec::new(alloc),
            pairs: IndexMap::new(alloc),
        }
    }

    /// How much there is. What is said of nodes holds: a gate stands behind its operands, and no pair stands
    /// twice.
    pub fn size(&self) -> Size
        ensures sound { AreNodesSound self.now }
        ensures size { result ≡ record { inputs = self.now.inputs; latches = self.now.latches; nodes = length self.now.nodes } }
    {
        Size {
            inputs: self.inputs,
            latches: self.latches,
            nodes: self.nodes.len() as u32,
        }
    }

    /// The nodes from 1 on, in the order of their making.
    pub fn nodes(&self) -> &[Node]
        ensures { result.now ≡ self.now.nodes }
    {
        self.nodes.as_slice()
    }

    /// A new input.
    pub fn input(&mut self) -> Result<Edge, AllocError>
        requires { length self.old.nodes + 1 < 2 ^ 31 }
        ensures ok { OnOk result (self.new ≡ with_input self.old) }
        ensures edge { IfOk result (λ e. e ≡ next_edge self.old) }
        ensures err { OnErr result (self.new ≡ self.old) }
    {
        let number = self.nodes.len() as u32 + 1;
        self.nodes.push(Node::Input(self.inputs))?;
        self.inputs += 1;
        Ok(Edge::new(2 * number))
    }

    /// A new latch.
    pub fn latch(&mut self) -> Result<Edge, AllocError>
        requires { length self.old.nodes + 1 < 2 ^ 31 }
        ensures ok { OnOk result (self.new ≡ with_latch self.old) }
        ensures edge { IfOk result (λ e. e ≡ next_edge self.old) }
        ensures err { OnErr result (self.new ≡ self.old) }
    {
        let number = self.nodes.len() as u32 + 1;
        self.nodes.push(Node::Latch(self.latches))?;
        self.latches += 1;
        Ok(Edge::new(2 * number))
    }

    /// The conjunction of two edges. It is a constant or one of them where that is plain, the gate of the
    /// pair where there is one, and else a new gate.
    pub fn and(&mut self, a: Edge, b: Edge) -> Result<Edge, AllocError>
        requires first { a / 2 ≤ length self.old.nodes }
        requires second { b / 2 ≤ length self.old.nodes }
        requires room { length self.old.nodes + 1 < 2 ^ 31 }
        ensures ok { IfOk result (IsMade self.old self.new (and_in self.old.nodes a b)) }
        ensures within { IfOk result (λ e. e / 2 ≤ length self.new.nodes) }
        ensures err { OnErr result (self.new ≡ self.old) }
    {
        if let Some(edge) = fold(a, b) {
            return Ok(edge);
        }
        let pair = ordered(a, b);
        if let Some(number) = self.pairs.get(&pair) {
            return Ok(Edge::new(2 * *number));
        }
        let number = self.nodes.len() as u32 + 1;
        self.nodes.reserve(1)?;
        self.pairs.insert(pair, number)?;
        self.nodes.push_reserved(Node::Gate(pair.low, pair.high));
        Ok(Edge::new(2 * number))
    }

    /// Takes back what was made since it had this size.
    pub fn truncate(&mut self, size: Size)
        requires { AreNodesSound (record { inputs = size.inputs; latches = size.latches; nodes = take size.nodes self.old.nodes }) }
        ensures { self.new ≡ record { inputs = size.inputs; latches = size.latches; nodes = take size.nodes self.old.nodes } }
    {
        self.nodes.truncate(size.nodes as usize);
        let gates = self.nodes.len() - (size.inputs + size.latches) as usize;
        self.pairs.truncate(gates);
        self.inputs = size.inputs;
        self.latches = size.latches;
    }

    /// The values of all nodes, where the inputs and the latches have these values.
    pub fn eval(
        &self,
        alloc: Global,
        inputs: &[bool],
        latches: &[bool],
    ) -> Result<Values, AllocError>
        requires inputs { length inputs.now ≡ self.now.inputs }
        requires latches { length latches.now ≡ self.now.latches }
        ensures values { IfOk result (λ v. v ≡ node_values inputs.now latches.now self.now.nodes) }
        ensures len { IfOk result (λ v. length v ≡ length self.now.nodes + 1) }
    {
        let mut values = Vec::new(alloc);
        values.push(false)?;
        for node in &self.nodes {
            let value = node_value(*node, inputs, latches, &values);
            values.push(value)?;
        }
        Ok(Values::from_vec(values))
    }
}
