//! A frame more, over the parts of what is unrolled.
ghost use Rattle.std.specs.Prelude.{◌≡◌, ℕ, ◌+◌, ◌/◌, ◌<◌, ◌≤◌, [], length, map, fold, count_by, All, IfOk, OnOk, OnErr};
ghost use Rattle.gi_circuit.specs.Nodes.{is_gate, IsOrdered};
ghost use Rattle.gi_circuit.specs.Frames.{lit_of, edge_of, with_node, input_along, latches_of, framed, frame_of};
ghost use Rattle.gi_unroll.specs.Steps.{frames_of, along, IsReady, HasEdges, IsLonger};
ghost use Rattle.gi_unroll.specs.Frames.{IsUnrolling, most_of, IsFrame};
ghost use Rattle.gi_lit.specs.Literals.{max_var};

use crate::builder::Builder;
use crate::frame::Frame;
use gi_circuit::Circuit;
use gi_lit::{Edge, Lits};
use std::alloc::AllocError;

/// A frame, and the edges of the next latch states in the shared circuit.
#[derive(Drop)]
pub(crate) struct Extended {
    pub frame: Frame,
    pub nexts: Vec<Edge>,
}

/// The edges of a frame's inputs and latches in the shared circuit.
#[derive(Drop)]
struct Begun {
    inputs: Vec<Edge>,
    latches: Vec<Edge>,
}

/// The frame after `made` others whose variables begin at `n`.
pub(crate) fn extend(
    builder: &mut Builder,
    circuit: &Circuit,
    latches: &[Edge],
    made: u32,
    n: u32,
) -> Result<Extended, AllocError>
    requires kept { (top : ℕ) × (top < n)
        × IsUnrolling (record {
          system = circuit.now;
          frames = frames_of builder.old latches.now made;
          top = top;
        }) }
    requires room { n + most_of circuit.now ≤ max_var + 1 }
    ensures frame { IfOk result
        (λ x. IsFrame x.frame made
        (frame_of circuit.now (frames_of builder.old latches.now made) n)) }
    ensures frames { IfOk result
        (λ x. frames_of builder.new x.nexts.items (made + 1)
        ≡ (frame_of circuit.now (frames_of builder.old latches.now made) n).frames) }
    ensures fresh { IfOk result (λ x. x.frame.fresh ≤ most_of circuit.now) }
    ensures err { OnErr result (IsLonger builder.old builder.new) }
{
    let _counts = circuit.counts();
    builder.begin(made, n)?;
    let begun = begin_edges(builder, circuit, latches, made)?;
    rebuild(builder, circuit, &begun)?;
    let nexts = builder.edges_of(circuit.nexts())?;
    let frame = give(builder, circuit, &begun, made, n)?;
    Ok(Extended { frame, nexts })
}

/// The inputs, and the latches: at first their resets, and later what the frame before made of
/// their next states.
fn begin_edges(
    builder: &mut Builder,
    circuit: &Circuit,
    latches: &[Edge],
    made: u32,
) -> Result<Begun, AllocError>
    requires ready { IsReady builder.old }
    requires room { builder.old.next + circuit.now.parts.inputs + circuit.now.parts.latches
        ≤ max_var + 1 }
    ensures inputs { IfOk result
        (λ b. b.inputs.items ≡ (input_along circuit.now.parts.inputs
        (along builder.old [])).edges) }
    ensures latches { IfOk result
        (λ b. along builder.new b.latches.items
        ≡ latches_of circuit.now (frames_of builder.old latches.now made)
        (record (input_along circuit.now.parts.inputs (along builder.old [])) { edges = [] })) }
    ensures err { OnErr result (IsLonger builder.old builder.new) }
{
    let inputs = builder.inputs(circuit.counts().inputs)?;
    let latches = begin_latches(builder, circuit, latches, made)?;
    Ok(Begun { inputs, latches })
}

fn begin_latches(
    builder: &mut Builder,
    circuit: &Circuit,
    latches: &[Edge],
    made: u32,
) -> Result<Vec<Edge>, AllocError>
    requires ready { IsReady builder.old }
    requires room { builder.old.next + circuit.now.parts.latches ≤ max_var + 1 }
    ensures latches { IfOk result
        (λ es. along builder.new es.items
        ≡ latches_of circuit.now (frames_of builder.old latches.now made) (along builder.old [])) }
    ensures err { OnErr result (IsLonger builder.old builder.new) }
{
    let _counts = circuit.counts();
    if made == 0 {
        builder.resets(circuit.resets())
    } else {
        builder.copy(latches)
    }
}

/// All nodes of the circuit, over these edges of its inputs and latches.
fn rebuild(builder: &mut Builder, circuit: &Circuit, begun: &Begun) -> Result<(), AllocError>
    requires ready { IsReady builder.old }
    requires room { builder.old.next + count_by is_gate circuit.now.parts.nodes ≤ max_var + 1 }
    requires edges { HasEdges 0 builder.old }
    requires ordered { IsOrdered
        (record {
          inputs = length begun.now.inputs.items;
          latches = length begun.now.latches.items;
          nodes = circuit.now.parts.nodes;
        }) }
    requires inputs { All (λ e. e / 2 ≤ length builder.old.net) begun.now.inputs.items }
    requires latches { All (λ e. e / 2 ≤ length builder.old.net) begun.now.latches.items }
    ensures ok { OnOk result (builder.new ≡ fold (with_node begun.now.inputs.items
        begun.now.latches.items) builder.old circuit.now.parts.nodes) }
    ensures err { OnErr result (IsLonger builder.old builder.new) }
{
    builder.rebuild(
        circuit.nodes(),
        begun.inputs.as_slice(),
        begun.latches.as_slice(),
    )
}

/// The literals of a frame whose nodes are all there.
fn give(
    builder: &mut Builder,
    circuit: &Circuit,
    begun: &Begun,
    made: u32,
    n: u32,
) -> Result<Frame, AllocError>
    requires edges { HasEdges (length circuit.now.parts.nodes) builder.old }
    requires count { length builder.old.lits ≡ length builder.old.net + 1 }
    requires from { n ≤ builder.old.next }
    requires inputs { All (λ e. e / 2 ≤ length builder.old.net) begun.now.inputs.items }
    requires latches { All (λ e. e / 2 ≤ length builder.old.net) begun.now.latches.items }
    ensures frame { IfOk result
        (λ r. IsFrame r made (framed circuit.now (frames_of builder.old [] made) n
        begun.now.inputs.items begun.now.latches.items builder.old)) }
    ensures ok { OnOk result (builder.new ≡ record builder.old { clauses = [] }) }
    ensures err { OnErr result (builder.new ≡ builder.old) }
{
    let _counts = circuit.counts();
    let outs = outputs(builder, circuit.outs())?;
    let bads = outputs(builder, circuit.bads())?;
    let cons = outputs(builder, circuit.cons())?;
    let inputs = builder.lits_of(&begun.inputs)?;
    let latches = builder.lits_of(&begun.latches)?;
    Ok(Frame {
        time: made,
        fresh: builder.next() - n,
        added: builder.take_clauses(),
        inputs,
        latches,
        outs,
        bads,
        cons,
    })
}

/// The literals of edges of the circuit.
fn outputs(builder: &Builder, edges: &[Edge]) -> Result<Lits, AllocError>
    requires within { All (λ e. e / 2 < length builder.now.edges) edges.now }
    requires edges { All (λ e. e / 2 < length builder.now.lits) builder.now.edges }
    ensures { IfOk result (λ ls. ls ≡ map (lit_of builder.now.lits)
        (map (edge_of builder.now.edges) edges.now)) }
{
    let shared = builder.edges_of(edges)?;
    builder.lits_of(&shared)
}
