ghost use Rattle.std.specs.Prelude.{◌≡◌, ◌≢◌, ◌+◌, ◌<◌, ◌≤◌, ℕ, List, [], length, Contains, OnOk, OnErr};
ghost use Rattle.gi_store.specs.StoreView.{StoreView, IsLive, IsWithin, Keeps};
ghost use Rattle.gi_prop.specs.Attached.{IsAttached, Attaches, Detaches, HasSameKeys};
ghost use Rattle.gi_cdcl.specs.Searching.{MatchesStore, HasAll, AreKnown};
ghost use Rattle.gi_cdcl.specs.Ends.{Slices};
ghost use Rattle.gi_cdcl.specs.declared.slice.Slice.TheVariants.{Braked, NoMemory};
ghost use Rattle.gi_cdcl.specs.Sound.{stored};

use crate::brake::Brake;
use crate::decide::{back_to_root, forget};
use crate::order::Order;
use crate::run::start;
use crate::search_state::{Bounds, Progress, SearchState};
use crate::seen::Seen;
use crate::slice::{Slice, Sliced};
use gi_lit::{Clauses, Lit};
use gi_prop::{Prop, Trail};
use gi_store::{Key, Store};
use std::alloc::{AllocError, Global};
use std::marker::Model;

/// A search over the clauses of a store. Contracts see which keys are attached, and with which
/// stores it goes. Between calls its trail keeps its root level: what clauses force where nothing
/// is decided.
#[derive(Drop)]
pub struct Search {
    state: SearchState,
}

impl Model for Search {
    ghost use Rattle.std.specs.Prelude.{◌≡◌, []};
    ghost use Rattle.gi_cdcl.specs.Searching.{Searching};

    ghost Value = { Searching };

    ghost view = { λ s. record { attached = s.state.prop; root = s.state.trail } };

    ghost invariant = { λ s. s.state.trail.level_starts ≡ [] };
}

impl Search {
    /// A search with no key, which goes with every store.
    pub fn new(alloc: Global) -> Search
        ensures none { (k : ℕ) → ¬ IsAttached result.attached k }
        ensures goes { (h : StoreView) → MatchesStore result h }
    {
        let state = SearchState {
            alloc,
            trail: Trail::new(alloc),
            prop: Prop::new(alloc),
            order: Order::new(alloc),
            seen: Seen::new(alloc),
            vars_passed: 0,
            assumed_passed: 0,
        };
        Search { state }
    }

    /// Attaches a key of the store. After an error the same keys are attached as before, and the
    /// search goes with the same stores.
    pub fn attach(&mut self, store: &Store, key: Key) -> Result<(), AllocError>
        requires goes { MatchesStore self.old store.now }
        requires live { IsLive store.now key }
        requires free { ¬ IsAttached self.old.attached key }
        ensures ok { OnOk result (Attaches key self.old.attached self.new.attached) }
        ensures goes { MatchesStore self.new store.now }
        ensures err { OnErr result (HasSameKeys self.old.attached self.new.attached) }
        ensures err_goes { OnErr result
            ((h : StoreView) → MatchesStore self.old h → MatchesStore self.new h) }
    {
        self.state.trail.grow(store.vars())?;
        self.state.prop.attach(store, &self.state.trail, key)
    }

    /// Detaches a key. Takes no memory. Since its clause may have forced what is true at the root,
    /// the root is found anew by the next slice.
    pub fn detach(&mut self, key: Key)
        requires { IsAttached self.old.attached key }
        ensures detached { Detaches key self.old.attached self.new.attached }
        ensures goes { (h : StoreView) → MatchesStore self.old h → MatchesStore self.new h }
    {
        forget(&mut self.state.order, &mut self.state.trail);
        self.state.prop.detach(key);
    }

    /// Searches until so many clauses were learnt, the brake tells a mark that reaches the serial,
    /// or there is a verdict on the clauses in force and the assumptions. The clauses that it
    /// learns stand in the store, and are attached, unless memory was wanting: then the store's
    /// problem is as before, what was learnt stands in it, and the search isn't used again. The
    /// brake is asked at the start and after each conflict: after each that teaches a clause, and
    /// after the one at the root where a clause was empty before.
    pub fn slice<B: Brake>(
        &mut self,
        store: &mut Store,
        assumed: &[Lit],
        limit: u32,
        serial: u64,
        brake: &mut B,
    ) -> Sliced
        requires limit { (1 ≤ limit) × (limit ≤ 1024) }
        requires assumed { IsWithin store.old.vars assumed.now }
        requires goes { MatchesStore self.old store.old }
        requires all { HasAll self.old store.old }
        requires known { AreKnown store.old }
        requires new_brake { (B.top brake.old ≡ 0) × (B.asks brake.old ≡ 0) }
        ensures slices { Slices store.old store.new assumed.now limit serial result.mark result.news
            result.end }
        ensures keeps { Keeps store.old store.new }
        ensures mark { result.mark ≡ B.top brake.new }
        ensures follows { B.follows brake.old brake.new }
        ensures asks { result.end ≢ NoMemory → length result.news < B.asks brake.new }
        ensures asks_root { result.end ≢ NoMemory → result.end ≢ Braked
            → Contains (stored store.old) [] → length result.news + 1 < B.asks brake.new }
        ensures goes { result.end ≢ NoMemory
            → MatchesStore self.new store.new × HasAll self.new store.new }
    {
        let bounds = Bounds { limit, serial };
        let mut progress = Progress {
            news: Vec::new(self.state.alloc),
            mark: 0,
        };
        let ended = start(
            &mut self.state,
            store,
            assumed,
            bounds,
            brake,
            &mut progress,
        );
        let end = ended.unwrap_or(Slice::NoMemory);
        let _level = self.state.trail.level();
        back_to_root(&mut self.state.order, &mut self.state.trail);
        Sliced {
            news: Clauses::from_vec(progress.news),
            mark: progress.mark,
            end,
        }
    }
}
