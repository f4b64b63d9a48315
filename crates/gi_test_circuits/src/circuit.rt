use crate::files::value_of;
use gi_aiger::Reset;
use gi_circuit::{Circuit, Counts, Node};
use gi_lit::Edge;
use std::alloc::{AllocError, Global};

/// The code of a new input.
fn input(c: &mut Circuit) -> Result<Option<u32>, AllocError> {
    if c.nodes().len() >= 1000 {
        return Ok(None);
    }
    let edge = c.input()?;
    Ok(Some(edge.code()))
}

/// The code of a new latch.
fn latch(c: &mut Circuit, reset: Reset) -> Result<Option<u32>, AllocError> {
    if c.nodes().len() >= 1000 {
        return Ok(None);
    }
    let edge = c.latch(reset)?;
    Ok(Some(edge.code()))
}

/// The code of the conjunction of the edges of two codes, if there are such.
fn and(c: &mut Circuit, a: u32, b: u32) -> Result<Option<u32>, AllocError> {
    let nodes = c.nodes().len();
    if (a / 2) as usize > nodes || (b / 2) as usize > nodes || nodes >= 1000 {
        return Ok(None);
    }
    let edge = c.and(Edge::new(a), Edge::new(b))?;
    Ok(Some(edge.code()))
}

/// The value of an edge, if there are as many inputs and latches, and its node.
fn value(
    alloc: Global,
    c: &Circuit,
    inputs: &[bool],
    latches: &[bool],
    e: u32,
) -> Result<Option<bool>, AllocError> {
    let counts = c.counts();
    if inputs.len() != counts.inputs as usize || latches.len() != counts.latches as usize {
        return Ok(None);
    }
    let nodes = c.nodes().len();
    let values = c.eval(alloc, inputs, latches)?;
    if (e / 2) as usize > nodes {
        return Ok(None);
    }
    Ok(Some(values.get(Edge::new(e))))
}

/// Makes edges an output, a bad state and a constraint, if their nodes exist.
fn add(c: &mut Circuit, out: u32, bad: u32, con: u32) -> Result<bool, AllocError> {
    let nodes = c.nodes().len();
    let counts = c.counts();
    if (out / 2) as usize > nodes || (bad / 2) as usize > nodes || (con / 2) as usize > nodes {
        return Ok(false);
    }
    if counts.outs > 9 || counts.bads > 9 || counts.cons > 9 {
        return Ok(false);
    }
    c.add_out(Edge::new(out))?;
    c.add_bad(Edge::new(bad))?;
    c.add_con(Edge::new(con))?;
    Ok(true)
}

/// Two edges, and the edge of their conjunction.
const FOLDED: [(u32, u32, u32); 6] = [
    (2, 4, 6),
    (4, 2, 6),
    (2, 2, 2),
    (2, 3, 0),
    (0, 4, 0),
    (1, 4, 4),
];

fn are_made(c: &mut Circuit) -> Result<bool, AllocError> {
    for (a, b, made) in FOLDED {
        if and(c, a, b)? != Some(made) {
            return Ok(false);
        }
    }
    Ok(true)
}

/// The edges that are true where both inputs are.
fn are_evaluated(alloc: Global, c: &Circuit) -> Result<bool, AllocError> {
    for (e, expected) in [(6, true), (7, false), (0, false), (1, true)] {
        if value(alloc, c, &[true, true], &[], e)? != Some(expected) {
            return Ok(false);
        }
    }
    Ok(true)
}

const COUNTS: Counts = Counts {
    inputs: 2,
    latches: 1,
    gates: 1,
    outs: 1,
    bads: 1,
    cons: 1,
};

fn is_finished(c: &mut Circuit) -> Result<bool, AllocError> {
    let latch = latch(c, Reset::Zero)?;
    let added = add(c, 6, 7, 8)?;
    Ok(latch == Some(8) && added && c.counts() == COUNTS)
}

/// Whether two inputs, their conjunctions and a latch are made and evaluated as they should be.
fn are_told(alloc: Global) -> Result<bool, AllocError> {
    let mut c = Circuit::new(alloc);
    let first = input(&mut c)?;
    let second = input(&mut c)?;
    let made = are_made(&mut c)?;
    let evaluated = are_evaluated(alloc, &c)?;
    let finished = is_finished(&mut c)?;
    let inputs = first == Some(2) && second == Some(4);
    Ok(inputs && made && evaluated && finished)
}

#[test]
fn gates_are_folded_found_and_evaluated(rt: HostRuntime) {
    assert!(rt; are_told(rt.alloc()) == Ok(true));
}

fn circuit_of(alloc: Global, file: &[u8]) -> Result<Option<Circuit>, AllocError> {
    match value_of(alloc, file)? {
        None => Ok(None),
        Some(aig) => Ok(Some(Circuit::from_aig(alloc, &aig)?)),
    }
}

/// Two numbers for a node: 0 and the place of an input, 1 and that of a latch, or the edges of a
/// gate.
fn pair_of(node: Node) -> (u32, u32) {
    match node {
        Node::Input(place) => (0, place),
        Node::Latch(place) => (1, place),
        Node::Gate(a, b) => (a.code(), b.code()),
    }
}

fn nodes_are(nodes: &[Node], expected: &[(u32, u32)]) -> bool {
    if nodes.len() != expected.len() {
        return false;
    }
    for k in 0..nodes.len() {
        if k < expected.len() && pair_of(nodes[k]) != expected[k] {
            return false;
        }
    }
    true
}

fn edges_are(edges: &[Edge], expected: &[u32]) -> bool {
    if edges.len() != expected.len() {
        return false;
    }
    for k in 0..edges.len() {
        if k < expected.len() && edges[k].code() != expected[k] {
            return false;
        }
    }
    true
}

/// A file, and its circuit's nodes, next states, outputs, bad states and constraints.
#[derive(Clone, Copy)]
struct Row {
    file: &'static [u8],
    nodes: &'static [(u32, u32)],
    nexts: &'static [u32],
    outs: &'static [u32],
    bads: &'static [u32],
    cons: &'static [u32],
}

/// A conjunction; a latch that turns; gates that stand before their operands, where two have the
/// same level; gates that fold; and a pair in either order.
const ROWS: [Row; 5] = [
    Row {
        file: b"aag 3 2 0 1 1\n2\n4\n6\n6 2 4\n",
        nodes: &[(0, 0), (0, 1), (2, 4)],
        nexts: &[],
        outs: &[6],
        bads: &[],
        cons: &[],
    },
    Row {
        file: b"aag 1 0 1 2 0\n2 3\n2\n3\n",
        nodes: &[(1, 0)],
        nexts: &[3],
        outs: &[2, 3],
        bads: &[],
        cons: &[],
    },
    Row {
        file: b"aag 6 2 1 1 3 1 1\n2\n4\n6 13 1\n12\n10\n9\n12 8 10\n10 2 6\n8 5 3\n",
        nodes: &[(0, 0), (0, 1), (1, 0), (2, 6), (3, 5), (8, 10)],
        nexts: &[13],
        outs: &[12],
        bads: &[8],
        cons: &[11],
    },
    Row {
        file: b"aag 5 1 0 1 2\n2\n10\n10 8 3\n8 2 2\n",
        nodes: &[(0, 0)],
        nexts: &[],
        outs: &[0],
        bads: &[],
        cons: &[],
    },
    Row {
        file: b"aag 4 2 0 2 2\n2\n4\n6\n9\n6 2 4\n8 4 2\n",
        nodes: &[(0, 0), (0, 1), (2, 4)],
        nexts: &[],
        outs: &[6, 7],
        bads: &[],
        cons: &[],
    },
];

fn is_row(c: &Circuit, row: &Row) -> bool {
    nodes_are(c.nodes(), row.nodes)
        && edges_are(c.nexts(), row.nexts)
        && edges_are(c.outs(), row.outs)
        && edges_are(c.bads(), row.bads)
        && edges_are(c.cons(), row.cons)
}

fn makes_row(alloc: Global, row: &Row) -> Result<bool, AllocError> {
    match circuit_of(alloc, row.file)? {
        None => Ok(false),
        Some(c) => Ok(is_row(&c, row)),
    }
}

#[test]
fn circuits_of_files(rt: HostRuntime) {
    for row in ROWS {
        assert!(rt; makes_row(rt.alloc(), &row) == Ok(true));
    }
}

/// Whether a circuit's latches have all three resets and their own values next, and the second
/// takes another next state.
fn turns_second(c: &mut Circuit) -> bool {
    let resets = c.resets() == [Reset::Zero, Reset::One, Reset::Free].as_slice();
    let kept = edges_are(c.nexts(), &[2, 4, 6]);
    if c.counts().latches > 1 && c.nodes().len() >= 3 {
        c.set_next(1, Edge::new(7));
    }
    resets && kept && edges_are(c.nexts(), &[2, 7, 6])
}

/// A latch has its file's reset, and keeps its value until it is given a next state.
fn turns(alloc: Global) -> Result<bool, AllocError> {
    match circuit_of(alloc, b"aag 3 0 3 0 0\n2 2\n4 4 1\n6 6 6\n")? {
        None => Ok(false),
        Some(mut c) => Ok(turns_second(&mut c)),
    }
}

#[test]
fn resets_and_next_states(rt: HostRuntime) {
    assert!(rt; turns(rt.alloc()) == Ok(true));
}
