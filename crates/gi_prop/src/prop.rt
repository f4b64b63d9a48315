ghost use Rattle.std.specs.Prelude.{◌≡◌, ◌≢◌, ℕ, List, length, ◌↔◌, IfSome, IfNone, OnOk, OnErr, MatchOption};
ghost use Rattle.gi_store.specs.StoreView.{StoreView, Holds, IsLive, IsWithin};
ghost use Rattle.gi_prop.specs.TrailView.{TrailView};
ghost use Rattle.gi_prop.specs.Attached.{Attached, IsAttached, Goes, HasSameKeys, Attaches, Detaches, AddsForced, AreSettled, IsConflict, Watches, HasWatches, KeepsWatches, HasTwoLeft, AreOfClause, AreWatched};

use crate::follow::follow;
use crate::look::{initial_watches, watch_in};
use crate::room::make_room;
use crate::starts::Starts;
use crate::trail::Trail;
use crate::unwatched::scan_all;
use gi_chains::Chains;
use gi_lit::{Lit, top_variable};
use gi_store::{Key, Store};
use std::alloc::{AllocError, Global};
use std::marker::Model;

/// A propagator: the keys of the clauses that take part in unit propagation, with two watched
/// literals for each clause. Contracts see which keys are attached, what their clauses watch, and
/// with which stores and trails it goes.
///
/// Each attached clause of two or more different literals watches two of them, or waits until two
/// of them aren't false, or one is true and another became false since the last level began. A
/// literal that becomes false has the clauses looked at that watch it, and those alone; beside a
/// watch stands its blocker, another literal of the clause: where that is true the clause isn't
/// read.
#[derive(Drop)]
pub struct Prop {
    slots: Vec<Option<Key>>,
    first: Chains,
    second: Chains,
    starts: Starts,
}

impl Model for Prop {
    ghost use Rattle.gi_prop.specs.Attached.{Attached};
    ghost use Rattle.gi_prop.specs.Watching.{AreKept};

    ghost Value = { Attached };

    ghost view = { λ p. record { slots = p.slots.items; first = p.first; second = p.second } };

    ghost invariant = { λ p. AreKept p.slots.items p.first p.second };
}

impl Prop {
    /// A propagator with no key, which goes with every store and trail.
    pub fn new(alloc: Global) -> Prop
        ensures none { (k : ℕ) → ¬ IsAttached result k }
        ensures goes { (s : StoreView) (t : TrailView) → Goes result s t }
    {
        Prop {
            slots: Vec::new(alloc),
            first: Chains::new(alloc),
            second: Chains::new(alloc),
            starts: Starts::new(alloc),
        }
    }

    /// Attaches a key. After an error the same keys are attached as before.
    pub fn attach(&mut self, store: &Store, trail: &Trail, key: Key) -> Result<(), AllocError>
        requires goes { Goes self.old store.now trail.now }
        requires live { IsLive store.now key }
        requires free { ¬ IsAttached self.old key }
        requires within { (clause : List ℕ) → Holds store.now key clause
            → IsWithin trail.now.vars clause }
        ensures attached { OnOk result (Attaches key self.old self.new) }
        ensures goes { Goes self.new store.now trail.now }
        ensures err { OnErr result (HasSameKeys self.old self.new) }
        ensures err_goes { OnErr result
            ((s : StoreView) (t : TrailView) → Goes self.old s t → Goes self.new s t) }
        ensures watched { OnOk result
            ((clause : List ℕ) → Holds store.now key clause → HasWatches self.new key
            ↔ HasTwoLeft trail.now.lits clause) }
        ensures others { (k : ℕ) → k ≢ key → KeepsWatches self.old self.new k }
        ensures err_watched { OnErr result (KeepsWatches self.old self.new key) }
    {
        let node = key.number();
        let clause = store.clause(key);
        let lists = 2 * top_variable(clause) + 3;
        make_room(
            &mut self.slots,
            &mut self.first,
            &mut self.second,
            &mut self.starts,
            node,
            lists,
            clause.len(),
        )?;
        let home = initial_watches(clause, trail);
        self.slots[node as usize] = Some(key);
        self.first.push_front(home.0, node);
        self.second.push_front(home.1, node);
        self.first.set_word(node, home.1.saturating_sub(1));
        self.second.set_word(node, home.0.saturating_sub(1));
        Ok(())
    }

    /// Detaches a key. Takes no memory.
    pub fn detach(&mut self, key: Key)
        requires { IsAttached self.old key }
        ensures detached { Detaches key self.old self.new }
        ensures goes { (s : StoreView) (t : TrailView) → Goes self.old s t → Goes self.new s t }
        ensures others { (k : ℕ) → k ≢ key → KeepsWatches self.old self.new k }
    {
        let node = key.number();
        self.slots[node as usize] = None;
        self.first.unlink(node);
        self.second.unlink(node);
    }

    /// Adds to the trail what the attached clauses force, until each of them is settled (None), or
    /// all literals of one are false (its key). A literal that a clause repeats counts once. Takes
    /// no memory.
    pub fn propagate(&mut self, store: &Store, trail: &mut Trail) -> Option<Key>
        requires { Goes self.old store.now trail.old }
        ensures keys { HasSameKeys self.old self.new }
        ensures goes { Goes self.new store.now trail.new }
        ensures adds { AddsForced self.new store.now trail.old trail.new }
        ensures closed { IfNone result (AreSettled self.new store.now trail.new.lits) }
        ensures looked { IfNone result (trail.new.head ≡ length trail.new.lits) }
        ensures conflict { IfSome result (IsConflict self.new store.now trail.new.lits) }
        ensures watched { IfNone result (AreWatched self.new store.now trail.new.lits) }
        ensures stays { (k : ℕ) → IsAttached self.old k → HasWatches self.old k
            → HasWatches self.new k }
    {
        // A trail and a store say what is true of each: how far a trail was looked at, and that no
        // key has two clauses.
        let _ = trail.level();
        let _ = store.vars();
        let slots = self.slots.as_slice();
        if let Some(key) = scan_all(&mut self.first, &mut self.second, slots, store, trail) {
            return Some(key);
        }
        follow(
            &mut self.first,
            &mut self.second,
            slots,
            &mut self.starts,
            store,
            trail,
        )
    }

    /// The two literals that the clause of the key watches, different ones of it. None exactly
    /// where it watches none: after an `attach` exactly where fewer than two different literals of
    /// it weren't false; after a `propagate` without a key only where fewer than two aren't. In
    /// constant time.
    pub fn watches(&self, key: Key) -> Option<(Lit, Lit)>
        requires { IsAttached self.now key }
        ensures value { MatchOption result (¬ HasWatches self.now key)
            (λ w. Watches self.now key w.0 w.1) }
        ensures literals { (s : StoreView) (t : TrailView) → Goes self.now s t
            → IfSome result (λ w. AreOfClause s key w.0 w.1) }
    {
        let node = key.number();
        match watch_in(&self.first, node) {
            None => None,
            Some(first) => match watch_in(&self.second, node) {
                None => None,
                Some(second) => Some((first, second)),
            },
        }
    }
}
