ghost use Rattle.std.specs.Prelude.{◌≡◌, ◌≢◌, ◌≤◌, ◌<◌, ◌/◌, ◌↔◌, [], false, drop, All, Contains, length, OnOk, IfOk, IsTrue};
ghost use Rattle.std.specs.List.{list_any};
ghost use Rattle.gi_lit.specs.Literals.{max_var};
ghost use Rattle.gi_lit.specs.Problem.{grown, with_clause, with_clauses, with_group, with_guard, next_guard, without_guard, without_var, IsWellFormed};
ghost use Rattle.gi_store.specs.StoreView.{IsWithin};
ghost use Rattle.gi_model.specs.Limits.{most_news};
ghost use Rattle.gi_model.specs.Effects.{trimmed};
ghost use Rattle.gi_model.specs.Refusals.{some_unusable};
ghost use Rattle.gi_cdcl.specs.declared.slice.Slice.TheVariants.{NoMemory};
ghost use Rattle.gi_core.specs.Content.{no_content};
ghost use Rattle.gi_core.specs.Slicing.{Advances, AreUsable};

use crate::attaching::{detach_naming, detach_oldest, put, put_under};
use gi_cdcl::laws::edits_keep_searches;
use gi_cdcl::{Brake, Search, Slice, Sliced};
use gi_lit::{Clause, Lit, Var};
use gi_model::MAX_UNTRIMMED;
use gi_store::{NewGuard, Store, edits_are_of_the_problem};
use std::alloc::{AllocError, Global};
use std::marker::Model;

/// The clauses in their store, with the search that goes with them. Contracts see the problem, its
/// clauses with their keys, and the learnt clauses. Where memory was wanting it is a new one, with
/// nothing in it, so that the search goes with the store.
#[derive(Drop)]
pub struct Solver {
    alloc: Global,
    pub(crate) store: Store,
    search: Search,
}

impl Model for Solver {
    ghost use Rattle.gi_core.specs.Content.{Content, content_of};
    ghost use Rattle.gi_core.specs.Joined.{IsJoined};

    ghost Value = { Content };

    ghost view = { λ e. content_of e.store };

    ghost invariant = { λ e. IsJoined e.search e.store };
}

impl Solver {
    /// With nothing in it.
    pub fn new(alloc: Global) -> Solver
        ensures { result ≡ no_content }
    {
        Solver {
            alloc,
            store: Store::new(alloc),
            search: Search::new(alloc),
        }
    }

    /// At least so many variables.
    pub fn grow(&mut self, n: u32) -> Result<(), AllocError>
        requires { n ≤ max_var }
        ensures { OnOk result (self.new ≡ record self.old { problem = grown n self.old.problem }) }
    {
        edits_keep_searches();
        self.store.grow(n)
    }

    /// A plain clause more.
    pub fn add(&mut self, c: &[Lit]) -> Result<(), AllocError>
        requires { some_unusable self.old.problem c.now ≡ false }
        ensures { OnOk result (self.new ≡ record self.old {
          problem = with_clause c.now
              self.old.problem;
          base = self.new.base;
        }) }
    {
        match put(&mut self.store, &mut self.search, c) {
            Ok(()) => Ok(()),
            Err(e) => {
                *self = Solver::new(self.alloc);
                Err(e)
            }
        }
    }

    /// At least so many variables, and then plain clauses more, one after another.
    pub fn load(&mut self, vars: u32, clauses: &[Clause]) -> Result<(), AllocError>
        requires vars { vars ≤ max_var }
        requires whole { IsWellFormed self.old.problem }
        requires usable { list_any (some_unusable self.old.problem) clauses.now ≡ false }
        ensures { OnOk result (self.new ≡ record self.old {
          problem = with_clauses clauses.now
              (grown vars self.old.problem);
          base = self.new.base;
        }) }
    {
        self.grow(vars)?;
        for clause in clauses {
            self.add(clause.as_slice())?;
        }
        Ok(())
    }

    /// A clause more under active guards, one at least.
    pub fn add_under(&mut self, guards: &[Var], c: &[Lit]) -> Result<(), AllocError>
        requires some { 0 < length guards.now }
        requires guards { All (Contains self.old.problem.active) guards.now }
        requires usable { some_unusable self.old.problem c.now ≡ false }
        ensures { OnOk result (self.new ≡ record self.old {
          problem = with_group guards.now c.now
              self.old.problem;
          base = self.new.base;
        }) }
    {
        match put_under(&mut self.store, &mut self.search, guards, c) {
            Ok(()) => Ok(()),
            Err(e) => {
                *self = Solver::new(self.alloc);
                Err(e)
            }
        }
    }

    /// Hands out a guard.
    pub fn new_guard(&mut self) -> Result<Var, AllocError>
        requires { self.old.problem.freed ≡ [] → self.old.problem.vars < max_var }
        ensures guard { IfOk result (λ g. g ≡ next_guard self.old.problem) }
        ensures made { OnOk result
            (self.new ≡ record self.old { problem = with_guard self.old.problem }) }
    {
        edits_keep_searches();
        edits_are_of_the_problem();
        match self.store.new_guard() {
            NewGuard::Guard(g) => Ok(g),
            NewGuard::Limit => unreachable!(),
            NewGuard::NoMemory => Err(AllocError),
        }
    }

    /// Drops an active guard, with its clauses and what was learnt about it. Takes no memory.
    pub fn remove_guard(&mut self, g: Var)
        requires { Contains self.old.problem.active g }
        ensures { self.new ≡ record {
          problem = without_guard g self.old.problem;
          known = without_var g self.old.known;
          base = self.new.base;
        } }
    {
        edits_keep_searches();
        edits_are_of_the_problem();
        detach_naming(&self.store, &mut self.search, g);
        self.store.remove_guard(g);
    }

    /// With more than 20,000 learnt clauses the oldest half goes. Takes no memory.
    pub fn trim(&mut self)
        ensures { self.new ≡ record self.old { known = trimmed self.old.known } }
    {
        if self.store.known() > MAX_UNTRIMMED {
            self.forget_oldest();
        }
    }

    /// The oldest half of the learnt clauses goes.
    fn forget_oldest(&mut self)
        ensures { self.new ≡ record self.old {
          known = drop (length self.old.known / 2)
              self.old.known;
        } }
    {
        edits_keep_searches();
        edits_are_of_the_problem();
        detach_oldest(&self.store, &mut self.search);
        self.store.trim();
    }

    /// A slice of the search under these assumptions.
    pub fn slice<B: Brake>(
        &mut self,
        assumed: &[Lit],
        limit: u32,
        serial: u64,
        brake: &mut B,
    ) -> Sliced
        requires limit { (1 ≤ limit) × (limit ≤ most_news) }
        requires assumed { IsWithin self.old.problem.vars assumed.now }
        requires known { AreUsable self.old }
        requires new_brake { (B.top brake.old ≡ 0) × (B.asks brake.old ≡ 0) }
        ensures advances { Advances self.old self.new assumed.now limit serial result.mark
            result.news result.end }
        ensures mark { result.mark ≡ B.top brake.new }
        ensures follows { B.follows brake.old brake.new }
        ensures asks { result.end ≢ NoMemory → length result.news < B.asks brake.new }
    {
        let sliced = self
            .search
            .slice(&mut self.store, assumed, limit, serial, brake);
        if !is_lost(&sliced.end) {
            return sliced;
        }
        *self = Solver::new(self.alloc);
        sliced
    }
}

/// Whether memory was wanting.
pub fn is_lost(end: &Slice) -> bool
    ensures { IsTrue result ↔ (end.now ≡ NoMemory) }
{
    matches!(end, Slice::NoMemory)
}
