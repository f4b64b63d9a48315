// The gates by level.
ghost use Rattle.std.specs.Prelude.{◌≡◌, ◌≤◌, ◌<◌, ℕ, length, slice_index, IfOk, MatchOption};
ghost use Rattle.std.specs.List.{range_with_len};
ghost use Rattle.gi_levels.specs.Levels.{HasLevels};
ghost use Rattle.gi_levels.specs.Order.{by_level, up_to_level};

use crate::levels::{Levels, Node, levels_of};
use std::alloc::{AllocError, Global};

/// The places of gates by level, and within a level in their order. None exactly where the gates
/// have a cycle. Takes time by the number of gates times its logarithm, and by the number alone
/// where their levels rise.
pub fn by_level(alloc: Global, nodes: &[Node]) -> Result<Option<Vec<usize>>, AllocError>
    ensures order { IfOk result
        (λ found. MatchOption found (HasLevels nodes.now → ⊥)
        (λ places. places.items ≡ by_level nodes.now)) }
    ensures acyclic { IfOk result
        (λ found. MatchOption found (HasLevels nodes.now → ⊥) (λ places. HasLevels nodes.now)) }
{
    match levels_of(alloc, nodes)? {
        Levels::Found(levels) => Ok(Some(in_order(alloc, &levels)?)),
        Levels::Cycle => Ok(None),
    }
}

// The level of a place, 0 past the last.
fn level_at(levels: &[usize], place: usize) -> usize
    ensures { result ≡ slice_index levels.now place }
{
    if place < levels.len() {
        levels[place]
    } else {
        0
    }
}

// The places from 0 on.
fn places(alloc: Global, count: usize) -> Result<Vec<usize>, AllocError>
    ensures { IfOk result (λ places. places.items ≡ range_with_len 0 count) }
{
    let mut places = Vec::new(alloc);
    for place in 0..count {
        places.push(place)?;
    }
    Ok(places)
}

// The places by these levels, each from 1 up to how many there are.
fn in_order(alloc: Global, levels: &[usize]) -> Result<Vec<usize>, AllocError>
    requires { (k : ℕ) → k < length levels.now
        → (0 < slice_index levels.now k) × (slice_index levels.now k ≤ length levels.now) }
    ensures { IfOk result (λ places. places.items
        ≡ up_to_level (slice_index levels.now) (range_with_len 0 (length levels.now))
        (length levels.now)) }
{
    let mut places = places(alloc, levels.len())?;
    places.sort_by_key(|place| level_at(levels, *place))?;
    Ok(places)
}
