//! What needs no gate, and the order of a gate's edges.
ghost use Rattle.std.specs.Prelude.{◌≡◌};
ghost use Rattle.gi_circuit.specs.Nodes.{folded, pair_of};

use crate::node::Pair;
use gi_lit::Edge;

/// What a conjunction is without a gate.
pub(crate) fn fold(a: Edge, b: Edge) -> Option<Edge>
    ensures { result ≡ folded a b }
{
    if a.code() == 0 || b.code() == 0 {
        Some(Edge::new(0))
    } else if a.code() == 1 {
        Some(b)
    } else if b.code() == 1 {
        Some(a)
    } else if a.code() == b.code() {
        Some(a)
    } else if a.code() == b.not().code() {
        Some(Edge::new(0))
    } else {
        None
    }
}

/// The pair that a gate of two edges is kept as.
pub(crate) fn ordered(a: Edge, b: Edge) -> Pair
    ensures { result ≡ pair_of a b }
{
    if a.code() < b.code() {
        Pair { low: a, high: b }
    } else {
        Pair { low: b, high: a }
    }
}
