use gi_lit::Edge;

/// What a node of a circuit is: an input or a latch, each by its place from 0, or the conjunction of two
/// edges, the smaller one first.
#[derive(Clone, Copy, Debug)]
pub enum Node {
    Input(u32),
    Latch(u32),
    Gate(Edge, Edge),
}

/// The edges of a gate, the smaller one first.
#[derive(Clone, Copy, Debug, PartialEq, Eq, Hash)]
pub(crate) struct Pair {
    pub low: Edge,
    pub high: Edge,
}
