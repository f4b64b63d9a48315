// The levels of gates that come in any order.
ghost use Rattle.std.specs.Prelude.{◌≡◌, ◌≢◌, ◌+◌, ◌<◌, ◌≤◌, ◌∷◌, ◌++◌, [], ℕ, List, suc, max, length, slice_index, slice_index_or, slice_set, take, replicate, true, false, IfOk, OnOk, MatchBool, MatchOption, ◌-◌};
ghost use Rattle.gi_levels.specs.Levels.{IsOperand, HasLevels, AreLevels, ClosesCycle, IsKnown, Searching, Rooted, Keeps, IsLast, Advances, Visited, node_at};
ghost use Rattle.gi_levels.specs.Found.{FindsLevels, is_found};

use std::alloc::{AllocError, Global};

/// The places of a gate's operands; one past the last gate is no gate.
#[derive(Clone, Copy, Debug, PartialEq, Eq)]
pub struct Node {
    pub left: usize,
    pub right: usize,
}

// A search from gates to their operands.
#[derive(Drop)]
pub struct Search {
    // Whether a gate was on the path.
    seen: Vec<bool>,
    // The level of a gate, 0 as long as it isn't known.
    level: Vec<usize>,
    // The path.
    stack: Vec<usize>,
    // How many gates were on no path yet.
    fresh: usize,
}

/// The levels of gates.
#[derive(Drop)]
pub enum Levels {
    /// The level of each gate, by its place: one more than the greater level of its operands, where
    /// what is no gate has level 0.
    Found(Vec<usize>),
    /// There are none: the gates have a cycle.
    Cycle,
}

// The level of a place; what is no gate has level 0.
fn level_at(s: &Search, place: usize) -> usize
    ensures { result ≡ slice_index s.now.level.items place }
{
    if place < s.level.len() {
        s.level[place]
    } else {
        0
    }
}

// A gate whose level isn't known yet.
fn is_open(s: &Search, place: usize) -> bool
    ensures { MatchBool result
        ((place < length s.now.level.items) × (slice_index s.now.level.items place ≡ 0))
        (place < length s.now.level.items → slice_index s.now.level.items place ≢ 0) }
{
    place < s.level.len() && s.level[place] == 0
}

// A gate goes onto the path.
fn push(s: &mut Search, place: usize) -> Result<(), AllocError>
    requires within { place < length s.old.seen.items }
    requires fresh { 0 < s.old.fresh }
    ensures { OnOk result ((s.new.seen.items ≡ slice_set s.old.seen.items place true)
        × (s.new.level.items ≡ s.old.level.items)
        × (s.new.stack.items ≡ s.old.stack.items ++ place ∷ []) × (s.new.fresh + 1 ≡ s.old.fresh)) }
{
    s.stack.push(place)?;
    s.seen[place] = true;
    s.fresh -= 1;
    Ok(())
}

// The path's last gate has its level.
fn settle(s: &mut Search, place: usize, level: usize)
    requires within { place < length s.old.level.items }
    ensures { (s.new.seen.items ≡ s.old.seen.items)
        × (s.new.level.items ≡ slice_set s.old.level.items place level)
        × (s.old.stack.items ≡ [] → s.new.stack.items ≡ []) × (s.new.fresh ≡ s.old.fresh)
        × (s.new.stack.items ≡ take (length s.old.stack.items - 1) s.old.stack.items) }
{
    s.level[place] = level;
    s.stack.pop();
}

// From a gate to an operand whose level isn't known: onto the path, or a cycle is closed.
fn descend(s: &mut Search, nodes: &[Node], top: usize, place: usize) -> Result<bool, AllocError>
    requires sound { Searching nodes.now s.old.seen.items s.old.level.items s.old.stack.items
        s.old.fresh }
    requires last { IsLast s.old.stack.items top }
    requires operand { IsOperand nodes.now top place }
    requires open { slice_index s.old.level.items place ≡ 0 }
    ensures { IfOk result (λ on. MatchBool on (Advances nodes.now s.old.level.items
        s.old.stack.items s.old.fresh s.new.seen.items s.new.level.items s.new.stack.items
        s.new.fresh) (HasLevels nodes.now → ⊥)) }
{
    let _nodes = nodes.len();
    if s.seen[place] {
        return Ok(false);
    }
    push(s, place)?;
    Ok(true)
}

// One step from the path's last gate.
fn advance(s: &mut Search, nodes: &[Node], top: usize) -> Result<bool, AllocError>
    requires sound { Searching nodes.now s.old.seen.items s.old.level.items s.old.stack.items
        s.old.fresh }
    requires last { IsLast s.old.stack.items top }
    ensures { IfOk result (λ on. MatchBool on (Advances nodes.now s.old.level.items
        s.old.stack.items s.old.fresh s.new.seen.items s.new.level.items s.new.stack.items
        s.new.fresh) (HasLevels nodes.now → ⊥)) }
{
    let node = nodes[top];
    if is_open(s, node.left) {
        return descend(s, nodes, top, node.left);
    }
    if is_open(s, node.right) {
        return descend(s, nodes, top, node.right);
    }
    let left = level_at(s, node.left);
    let right = level_at(s, node.right);
    settle(s, top, left.max(right) + 1);
    Ok(true)
}

// Goes from a gate to all below it.
fn visit(s: &mut Search, nodes: &[Node], root: usize) -> Result<bool, AllocError>
    requires sound { Searching nodes.now s.old.seen.items s.old.level.items s.old.stack.items
        s.old.fresh }
    requires rooted { Rooted root s.old.stack.items s.old.level.items }
    ensures { IfOk result (λ on. MatchBool on (Visited nodes.now root s.old.level.items
        s.new.seen.items s.new.level.items s.new.stack.items s.new.fresh)
        (HasLevels nodes.now → ⊥)) }
{
    'steps: while let Some(top) = s.stack.last().copied() {
        if !advance(s, nodes, top)? {
            return Ok(false);
        }
    }
    Ok(true)
}

// Nothing is known yet.
fn new_search(alloc: Global, count: usize) -> Result<Search, AllocError>
    ensures { IfOk result (λ s. (s.seen.items ≡ replicate count false)
        × (s.level.items ≡ replicate count 0) × (s.stack.items ≡ []) × (s.fresh ≡ count)) }
{
    Ok(Search {
        seen: vec![in alloc; false; count]?,
        level: vec![in alloc; 0; count]?,
        stack: Vec::new(alloc),
        fresh: count,
    })
}

/// The levels of gates that come in any order, or that they have a cycle. Takes time by the number
/// of gates.
pub fn levels_of(alloc: Global, nodes: &[Node]) -> Result<Levels, AllocError>
    ensures { IfOk result (FindsLevels nodes.now) }
{
    let mut s = new_search(alloc, nodes.len())?;
    'roots: for root in 0..nodes.len() {
        if !start(&mut s, nodes, root)? {
            return Ok(Levels::Cycle);
        }
    }
    Ok(Levels::Found(s.level))
}

// From one gate, unless its level is known.
fn start(s: &mut Search, nodes: &[Node], root: usize) -> Result<bool, AllocError>
    requires sound { Searching nodes.now s.old.seen.items s.old.level.items s.old.stack.items
        s.old.fresh }
    requires none { s.old.stack.items ≡ [] }
    requires within { root < length nodes.now }
    ensures { IfOk result (λ on. MatchBool on (Visited nodes.now root s.old.level.items
        s.new.seen.items s.new.level.items s.new.stack.items s.new.fresh)
        (HasLevels nodes.now → ⊥)) }
{
    let _count = nodes.len();
    if s.level[root] != 0 {
        return Ok(true);
    }
    push(s, root)?;
    visit(s, nodes, root)
}

/// The place of the gate that closes the first cycle, if there is one: those before it have none,
/// and with it they have one. Takes time by the number of gates, and where there is a cycle that
/// times the number's logarithm.
pub fn first_cycle(alloc: Global, nodes: &[Node]) -> Result<Option<usize>, AllocError>
    ensures { IfOk result (λ found. MatchOption found (HasLevels nodes.now)
        (ClosesCycle nodes.now)) }
{
    if is_acyclic(alloc, nodes, nodes.len())? {
        return Ok(None);
    }
    let mut good = 0;
    let mut bad = nodes.len();
    'halves: while bad - good > 1 {
        let middle = good + (bad - good) / 2;
        if is_acyclic(alloc, nodes, middle)? {
            good = middle;
        } else {
            bad = middle;
        }
    }
    Ok(Some(good))
}

// Whether the first gates have no cycle.
fn is_acyclic(alloc: Global, nodes: &[Node], count: usize) -> Result<bool, AllocError>
    requires { count ≤ length nodes.now }
    ensures { IfOk result (λ yes. MatchBool yes (HasLevels (take count nodes.now))
        (HasLevels (take count nodes.now) → ⊥)) }
{
    let levels = levels_of(alloc, front(nodes, count))?;
    Ok(has_levels(levels))
}

fn has_levels(levels: Levels) -> bool
    ensures { result ≡ is_found levels }
{
    match levels {
        Levels::Found(_) => true,
        Levels::Cycle => false,
    }
}

fn front(nodes: &[Node], count: usize) -> &[Node]
    requires { count ≤ length nodes.now }
    ensures { result.now ≡ take count nodes.now }
{
    &nodes[..count]
}
