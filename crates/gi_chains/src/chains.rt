ghost use Rattle.std.specs.Prelude.{◌≡◌, ℕ, ◌+◌, ◌-◌, ◌<◌, ◌≤◌, [], ◌∷◌, ◌++◌, length, None, replicate, remove, slice_get, slice_index, vec_capacity, MatchOption, OnOk, OnErr};
ghost use Rattle.gi_chains.specs.Lists.{Lists, items_at, StandsAt, IsLinked, IsFree, IsApart, with_list, with_word, grown};
ghost use Rattle.gi_chains.specs.Links.{no_ends};
ghost use Rattle.gi_chains.specs.Seats.{blank_seat};

use crate::link::Link;
use crate::node::{Ends, Node, Seat, cut, link_back, link_front, node_of, put_word};
use std::alloc::{AllocError, Global};
use std::marker::Model;

/// The most nodes: each has a link in a word of 32 bits, beside none.
const MAX_NODES: u64 = 4_294_967_295;

/// From so many items on memory doesn't grow twofold.
const MANY: usize = 16_777_216;

/// Doubly linked lists of nodes. Lists and nodes go by their numbers, from 0, and a node stands in
/// at most one list. Each node keeps a word for its user, 0 at first, which no call but `set_word`
/// changes.
///
/// A list takes 8 bytes and a node 16. Every call but `grow` takes constant time and no memory.
#[derive(Debug, Drop)]
pub struct Chains {
    ends: Vec<Ends>,
    seats: Vec<Seat>,
}

impl Model for Chains {
    ghost use Rattle.std.specs.Prelude.{length};
    ghost use Rattle.gi_chains.specs.Lists.{Lists};
    ghost use Rattle.gi_chains.specs.Links.{walked};
    ghost use Rattle.gi_chains.specs.Seats.{nodes_of, words_of, IsCompact};

    ghost Value = { Lists };

    ghost view = { λ c. record {
      lists = walked c.ends.items (nodes_of c.seats.items);
      nodes = length c.seats.items;
      words = words_of c.seats.items;
    } };

    ghost invariant = { λ c. IsCompact c.ends.items c.seats.items };
}

impl Chains {
    /// No list and no node. Takes no memory.
    pub fn new(alloc: Global) -> Chains
        ensures empty { result ≡ record { lists = []; nodes = 0; words = [] } }
        ensures apart { IsApart result }
    {
        Chains {
            ends: Vec::new(alloc),
            seats: Vec::new(alloc),
        }
    }

    /// Makes the lists below `lists` and the nodes 0 to `last`, those that are missing: the new
    /// lists are empty, and the new nodes stand in no list and have the word 0. Lists and nodes
    /// that exist stay as they are.
    ///
    /// The only error is want of memory, as where `last` is 2^32 - 1 or more. The cost is
    /// amortised: constant for each list and each node.
    pub fn grow(&mut self, lists: u32, last: u64) -> Result<(), AllocError>
        ensures ok { OnOk result (self.new ≡ grown self.old lists (last + 1)) }
        ensures err { OnErr result (self.new ≡ self.old) }
        ensures apart { IsApart self.new }
    {
        let more_lists = (lists as usize).saturating_sub(self.ends.len());
        if last >= MAX_NODES {
            return Err(AllocError);
        }
        let more_nodes = (last as usize + 1).saturating_sub(self.seats.len());
        make_room(&mut self.ends, more_lists)?;
        make_room(&mut self.seats, more_nodes)?;
        add_ends(&mut self.ends, more_lists);
        add_seats(&mut self.seats, more_nodes);
        Ok(())
    }

    /// How many lists there are.
    pub fn lists(&self) -> usize
        ensures value { result ≡ length self.now.lists }
        ensures apart { IsApart self.now }
    {
        let _ = &self.seats;
        self.ends.len()
    }

    /// The first node of a list; None exactly where the list is empty.
    pub fn first(&self, list: u32) -> Option<u64>
        requires { list < length self.now.lists }
        ensures value { result ≡ slice_get (items_at self.now.lists list) 0 }
        ensures apart { IsApart self.now }
    {
        self.ends[list as usize].first.number()
    }

    /// The node that follows in the same list; None exactly where the node is the last of its list
    /// or in no list.
    pub fn next(&self, node: u64) -> Option<u64>
        requires { node < self.now.nodes }
        ensures linked { (l i : ℕ) → StandsAt self.now.lists l i node
            → result ≡ slice_get (items_at self.now.lists l) (i + 1) }
        ensures free { IsFree self.now.lists node → result ≡ None }
    {
        node_of(self.seats.as_slice(), node as u32).next.number()
    }

    /// The list in which a node stands; None exactly where it is in no list.
    pub fn list_of(&self, node: u64) -> Option<u32>
        requires { node < self.now.nodes }
        ensures value { MatchOption result (IsFree self.now.lists node)
            (λ l. (i : ℕ) × StandsAt self.now.lists l i node) }
        ensures apart { IsApart self.now }
    {
        node_of(self.seats.as_slice(), node as u32).list.get()
    }

    /// The word of a node.
    pub fn word(&self, node: u64) -> u32
        requires { node < self.now.nodes }
        ensures value { result ≡ slice_index self.now.words node }
        ensures apart { IsApart self.now }
    {
        self.seats[node as usize].word
    }

    /// Gives a node another word.
    pub fn set_word(&mut self, node: u64, word: u32)
        requires { node < self.old.nodes }
        ensures after { self.new ≡ with_word self.old node word }
        ensures apart { IsApart self.new }
    {
        put_word(&mut self.seats, node as u32, word);
    }

    /// Puts a node that is in no list at the front of a list.
    pub fn push_front(&mut self, list: u32, node: u64)
        requires list { list < length self.old.lists }
        requires node { node < self.old.nodes }
        requires free { IsFree self.old.lists node }
        ensures after { self.new ≡ with_list self.old list (node ∷ items_at self.old.lists list) }
        ensures apart { IsApart self.new }
    {
        link_front(&mut self.ends, &mut self.seats, list, node as u32);
    }

    /// Puts a node that is in no list at the back of a list.
    pub fn push_back(&mut self, list: u32, node: u64)
        requires list { list < length self.old.lists }
        requires node { node < self.old.nodes }
        requires free { IsFree self.old.lists node }
        ensures after { self.new ≡ with_list self.old list
            (items_at self.old.lists list ++ node ∷ []) }
        ensures apart { IsApart self.new }
    {
        link_back(&mut self.ends, &mut self.seats, list, node as u32);
    }

    /// Takes a node out of its list; the others of the list close up.
    pub fn unlink(&mut self, node: u64)
        requires { IsLinked self.old.lists node }
        ensures after { (l i : ℕ) → StandsAt self.old.lists l i node
            → self.new ≡ with_list self.old l (remove (items_at self.old.lists l) i) }
        ensures apart { IsApart self.new }
    {
        let _ = &self.ends;
        let at = node as u32;
        cut(&mut self.ends, &mut self.seats, at);
    }

    /// Makes a node the first of the list in which it stands; the others of the list keep their
    /// order.
    pub fn move_to_front(&mut self, node: u64)
        requires { IsLinked self.old.lists node }
        ensures after { (l i : ℕ) → StandsAt self.old.lists l i node
            → self.new ≡ with_list self.old l (node ∷ remove (items_at self.old.lists l) i) }
        ensures apart { IsApart self.new }
    {
        let _ = self.lists();
        let Some(list) = self.list_of(node) else {
            unreachable!()
        };
        self.unlink(node);
        self.push_front(list, node);
    }
}

/// Makes room for more items: for as many again as there are, so that a push costs constant time,
/// and where there are many already for an eighth of them.
fn make_room<T>(items: &mut Vec<T>, more: usize) -> Result<(), AllocError>
    ensures items { items.new.items ≡ items.old.items }
    ensures ok { OnOk result (length items.new.items + more ≤ vec_capacity items.new) }
{
    if items.len() < MANY {
        return items.reserve(more);
    }
    if items.capacity().saturating_sub(items.len()) >= more {
        return items.reserve(more);
    }
    items.reserve_exact(more.max(items.len() / 8))
}

fn add_ends(ends: &mut Vec<Ends>, more: usize)
    requires { length ends.old.items + more ≤ vec_capacity ends.old }
    ensures { ends.new.items ≡ ends.old.items ++ replicate more no_ends }
{
    for _i in 0..more {
        ends.push_reserved(Ends {
            first: Link::none(),
            last: Link::none(),
        });
    }
}

fn add_seats(seats: &mut Vec<Seat>, more: usize)
    requires { length seats.old.items + more ≤ vec_capacity seats.old }
    ensures { seats.new.items ≡ seats.old.items ++ replicate more blank_seat }
{
    for _i in 0..more {
        seats.push_reserved(Seat {
            node: Node {
                list: Link::none(),
                prev: Link::none(),
                next: Link::none(),
            },
            word: 0,
        });
    }
}
