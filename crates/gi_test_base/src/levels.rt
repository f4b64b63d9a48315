use gi_levels::{Levels, Node, by_level, first_cycle, levels_of};
use std::alloc::{AllocError, Global};

/// The levels of gates, none where there is a cycle.
fn found(alloc: Global, nodes: &[Node]) -> Result<Vec<usize>, AllocError> {
    match levels_of(alloc, nodes)? {
        Levels::Found(levels) => Ok(levels),
        Levels::Cycle => Ok(Vec::new(alloc)),
    }
}

fn ordered(alloc: Global, nodes: &[Node]) -> Result<Vec<usize>, AllocError> {
    match by_level(alloc, nodes)? {
        Some(places) => Ok(places),
        None => Ok(Vec::new(alloc)),
    }
}

/// Whether gates have these levels, this order and this first cycle.
fn are_told(
    alloc: Global,
    nodes: &[Node],
    levels: &[usize],
    places: &[usize],
    cycle: Option<usize>,
) -> Result<bool, AllocError> {
    Ok(
        found(alloc, nodes)?.as_slice() == levels
            && ordered(alloc, nodes)?.as_slice() == places
            && first_cycle(alloc, nodes)? == cycle,
    )
}

#[test]
fn gates_before_their_operands(rt: HostRuntime) {
    let nodes = [
        Node { left: 1, right: 9 },
        Node { left: 2, right: 2 },
        Node { left: 9, right: 9 },
        Node { left: 2, right: 9 },
    ];
    assert!(rt; are_told(rt.alloc(), &nodes, &[3, 2, 1, 2], &[2, 1, 3, 0], None) == Ok(true));
}

#[test]
fn the_gate_that_closes_a_cycle(rt: HostRuntime) {
    let nodes = [
        Node { left: 9, right: 9 },
        Node { left: 2, right: 0 },
        Node { left: 0, right: 1 },
        Node { left: 3, right: 3 },
    ];
    assert!(rt; are_told(rt.alloc(), &nodes, &[], &[], Some(2)) == Ok(true));
}
