use gi_chains::Chains;
use std::alloc::{AllocError, Global};

/// Whether three nodes stand in the first of two lists, in order, and one has its word.
fn link(alloc: Global) -> Result<bool, AllocError> {
    let mut chains = Chains::new(alloc);
    chains.grow(2, 2)?;
    chains.push_front(0, 0);
    chains.push_front(0, 1);
    chains.push_back(0, 2);
    chains.set_word(1, 9);
    let first = chains.first(0) == Some(1) && chains.word(1) == 9;
    let others = chains.next(1) == Some(0) && chains.next(0) == Some(2);
    Ok(first && others && chains.next(2).is_none())
}

#[test]
fn nodes_are_linked(rt: HostRuntime) {
    assert!(rt; link(rt.alloc()) == Ok(true));
}
