ghost use Rattle.std.specs.Prelude.{◌≡◌, ℕ, ◌<◌, ◌^◌, [], ◌∷◌, ◌++◌, length, IfSome, remove, slice_set};
ghost use Rattle.gi_chains.specs.Lists.{items_at, StandsAt, IsLinked, IsFree};
ghost use Rattle.gi_chains.specs.Links.{node_at, with_prev, with_next, walked, IsChained};
ghost use Rattle.gi_chains.specs.Seats.{nodes_of, words_of};

use crate::link::Link;

/// The list in which a node stands, and its neighbours there.
#[derive(Clone, Copy, Debug)]
pub(crate) struct Node {
    pub list: Link,
    pub prev: Link,
    pub next: Link,
}

/// The first and the last node of a list.
#[derive(Clone, Copy, Debug)]
pub(crate) struct Ends {
    pub first: Link,
    pub last: Link,
}

/// A node, and the word that its user keeps with it.
#[derive(Clone, Copy, Debug)]
pub(crate) struct Seat {
    pub node: Node,
    pub word: u32,
}

/// What is kept of a node.
pub(crate) fn node_of(seats: &[Seat], node: u32) -> Node
    requires { node < length seats.now }
    ensures { result ≡ node_at (nodes_of seats.now) node }
{
    seats[node as usize].node
}

/// Changes a node's list and neighbours. Its word stays.
fn set_node(seats: &mut [Seat], node: u32, now: Node)
    requires { node < length seats.old }
    ensures nodes { nodes_of seats.new ≡ slice_set (nodes_of seats.old) node now }
    ensures words { words_of seats.new ≡ words_of seats.old }
{
    seats[node as usize].node = now;
}

/// Changes a node's word. Its list and neighbours stay.
pub(crate) fn put_word(seats: &mut [Seat], node: u32, now: u32)
    requires { node < length seats.old }
    ensures nodes { nodes_of seats.new ≡ nodes_of seats.old }
    ensures words { words_of seats.new ≡ slice_set (words_of seats.old) node now }
{
    seats[node as usize].word = now;
}

/// Tells a node which one stands before it.
fn set_prev(seats: &mut [Seat], at: Link, prev: Link)
    requires { IfSome at (λ k. k < length seats.old) }
    ensures nodes { nodes_of seats.new ≡ with_prev (nodes_of seats.old) at prev }
    ensures words { words_of seats.new ≡ words_of seats.old }
{
    if let Some(k) = at.get() {
        let node = node_of(seats, k);
        set_node(seats, k, Node { prev, ..node });
    }
}

/// Tells a node which one stands behind it.
fn set_next(seats: &mut [Seat], at: Link, next: Link)
    requires { IfSome at (λ k. k < length seats.old) }
    ensures nodes { nodes_of seats.new ≡ with_next (nodes_of seats.old) at next }
    ensures words { words_of seats.new ≡ words_of seats.old }
{
    if let Some(k) = at.get() {
        let node = node_of(seats, k);
        set_node(seats, k, Node { next, ..node });
    }
}

/// Links a node before the first of a list.
pub(crate) fn link_front(ends: &mut [Ends], seats: &mut [Seat], list: u32, node: u32)
    requires chained { let nodes = nodes_of seats.old in IsChained ends.old nodes
        (walked ends.old nodes) }
    requires few_lists { length ends.old < 2 ^ 32 }
    requires few_nodes { length seats.old < 2 ^ 32 }
    requires list { list < length (walked ends.old (nodes_of seats.old)) }
    requires node { node < length seats.old }
    requires free { IsFree (walked ends.old (nodes_of seats.old)) node }
    ensures chained { let lists = walked ends.old (nodes_of seats.old) in IsChained ends.new
        (nodes_of seats.new) (slice_set lists list (node ∷ items_at lists list)) }
    ensures words { words_of seats.new ≡ words_of seats.old }
{
    let old = ends[list as usize];
    let alone = Node {
        list: Link::to(list),
        prev: Link::none(),
        next: old.first,
    };
    set_node(seats, node, alone);
    set_prev(seats, old.first, Link::to(node));
    ends[list as usize] = Ends {
        first: Link::to(node),
        last: old.last.or(node),
    };
}

/// Links a node behind the last of a list.
pub(crate) fn link_back(ends: &mut [Ends], seats: &mut [Seat], list: u32, node: u32)
    requires chained { let nodes = nodes_of seats.old in IsChained ends.old nodes
        (walked ends.old nodes) }
    requires few_lists { length ends.old < 2 ^ 32 }
    requires few_nodes { length seats.old < 2 ^ 32 }
    requires list { list < length (walked ends.old (nodes_of seats.old)) }
    requires node { node < length seats.old }
    requires free { IsFree (walked ends.old (nodes_of seats.old)) node }
    ensures chained { let lists = walked ends.old (nodes_of seats.old) in IsChained ends.new
        (nodes_of seats.new) (slice_set lists list (items_at lists list ++ node ∷ [])) }
    ensures words { words_of seats.new ≡ words_of seats.old }
{
    let old = ends[list as usize];
    let alone = Node {
        list: Link::to(list),
        prev: old.last,
        next: Link::none(),
    };
    set_node(seats, node, alone);
    set_next(seats, old.last, Link::to(node));
    ends[list as usize] = Ends {
        first: old.first.or(node),
        last: Link::to(node),
    };
}

/// Takes a node out of its list.
pub(crate) fn cut(ends: &mut [Ends], seats: &mut [Seat], node: u32)
    requires chained { let nodes = nodes_of seats.old in IsChained ends.old nodes
        (walked ends.old nodes) }
    requires linked { IsLinked (walked ends.old (nodes_of seats.old)) node }
    requires node { node < length seats.old }
    ensures chained { let lists = walked ends.old (nodes_of seats.old) in (l i : ℕ)
        → StandsAt lists l i node
        → IsChained ends.new (nodes_of seats.new)
        (slice_set lists l (remove (items_at lists l) i)) }
    ensures words { words_of seats.new ≡ words_of seats.old }
{
    let at = node_of(seats, node);
    let Some(list) = at.list.get() else {
        unreachable!()
    };
    set_next(seats, at.prev, at.next);
    set_prev(seats, at.next, at.prev);
    let gone = Node {
        list: Link::none(),
        prev: Link::none(),
        next: Link::none(),
    };
    set_node(seats, node, gone);
    let old = ends[list as usize];
    ends[list as usize] = Ends {
        first: at.prev.choose(old.first, at.next),
        last: at.next.choose(old.last, at.prev),
    };
}
