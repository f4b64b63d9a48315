ghost use Rattle.std.specs.Prelude.{◌≡◌, ◌-◌, ◌/◌, ◌<◌, length};
ghost use Rattle.gi_circuit.specs.Values.{value_in};
ghost use Rattle.gi_circuit.specs.Nodes.{IsPlaced, value_of};

use crate::node::Node;
use gi_lit::Edge;
use std::marker::Model;

/// The values of a circuit's nodes. Contracts see the list of them: that of node k stands at place k, and
/// node 0 is false.
#[derive(Drop)]
pub struct Values {
    values: Vec<bool>,
}

impl Model for Values {
    ghost use Rattle.std.specs.Prelude.{List, Bool};

    ghost Value = { List Bool };

    ghost view = { λ v. v.values.items };
}

impl Values {
    pub(crate) fn from_vec(values: Vec<bool>) -> Values
        ensures { result ≡ values.items }
    {
        Values { values }
    }

    /// The value of an edge. Its node must be of the circuit that was evaluated.
    pub fn get(&self, e: Edge) -> bool
        requires { e / 2 < length self.now }
        ensures { result ≡ value_in self.now e }
    {
        value_at(&self.values, e)
    }
}

/// The value of a node, from those of the nodes before it.
pub(crate) fn node_value(node: Node, inputs: &[bool], latches: &[bool], values: &[bool]) -> bool
    requires some { 0 < length values.now }
    requires placed { IsPlaced (length inputs.now) (length latches.now) (length values.now - 1) node }
    ensures { result ≡ value_of inputs.now latches.now values.now node }
{
    match node {
        Node::Input(place) => inputs[place as usize],
        Node::Latch(place) => latches[place as usize],
        Node::Gate(a, b) => value_at(values, a) && value_at(values, b),
    }
}

#[tactic(auto, unfolding(crate::specs::Values::value_in))]
fn value_at(values: &[bool], e: Edge) -> bool
    requires { e / 2 < length values.now }
    ensures { result ≡ value_in values.now e }
{
    let value = values[e.node() as usize];
    if e.is_negative() { !value } else { value }
}
