ghost use Rattle.std.specs.Prelude.{◌≡◌, ℕ, List, None, ◌<◌, ◌≤◌, ◌-◌, [], ◌∷◌, ◌++◌, length, take, Contains, IsTrue, ◌↔◌, IfOk, OnOk, OnErr, is_some};
ghost use Rattle.gi_lit.specs.Problem.{Problem};
ghost use Rattle.gi_store.specs.StoreView.{StoreView, problem_of, IsWithin};
ghost use Rattle.gi_lit.specs.Lists.{IsSublist};
ghost use Rattle.gi_model.specs.State.{Scope, listed, failing, scope_assumed, scope_listed};
ghost use Rattle.gi_scopes.specs.Listing.{AreNoted, Finds, Builds, Counts, GrowsLittle};
ghost use Rattle.gi_scopes.specs.Open.{Open, AreReasoned, StillFail};
ghost use Rattle.gi_scopes.specs.Answers.{TellsTest, Opens, KeepsTrail, Ticks, TicksFew, TellsReasons};
ghost use Rattle.gi_scopes.specs.Under.{base_of};
ghost use Rattle.gi_scopes.specs.Built.{IsFor, kept_lits};

use crate::answers::{Reasoned, Tested};
use crate::find::find;
use crate::finding::Finding;
use crate::kept::{Kept, cut};
use crate::level::{Level, first_failing, is_listed, place_of};
use crate::lists::append;
use crate::outcome::{Implied, Outcome};
use crate::short::Short;
use crate::steps::Steps;
use gi_lit::{Lit, Lits};
use gi_store::Store;
use std::alloc::{AllocError, Global};
use std::marker::Model;
use std::mem;
use std::sync::ledger::Ledger;

/// Scopes that are open. Contracts see their assumptions with what each test found, the oldest
/// first, the reasons of each literal that they list, and the trail that is kept between calls,
/// with the keys of the clauses that it is built for. A table that has no marks between calls is
/// kept beside it.
#[derive(Drop)]
pub struct Scopes {
    alloc: Global,
    levels: Vec<Level>,
    reasons: Vec<Short>,
    kept: Option<Kept>,
    noted: Vec<bool>,
}

impl Model for Scopes {
    ghost use Rattle.gi_scopes.specs.Open.{Open};
    ghost use Rattle.std.specs.Prelude.{[]};
    ghost use Rattle.gi_scopes.specs.Kept.{IsOpen};
    ghost use Rattle.gi_scopes.specs.Listing.{AreNoted};

    ghost Value = { Open };

    ghost view = { λ s. record {
      scopes = s.levels.items;
      reasons = s.reasons.items;
      kept = s.kept;
    } };

    ghost invariant = { λ s. IsOpen s.levels.items s.reasons.items × AreNoted [] s.noted.items };
}

impl Scopes {
    /// No scope.
    pub fn new(alloc: Global) -> Scopes
        ensures { result ≡ record { scopes = []; reasons = []; kept = None } }
    {
        Scopes {
            alloc,
            levels: Vec::new(alloc),
            reasons: Vec::new(alloc),
            kept: None,
            noted: Vec::new(alloc),
        }
    }

    /// How many scopes are open.
    pub fn depth(&self) -> u32
        ensures { result ≡ length self.now.scopes }
    {
        self.levels.len() as u32
    }

    /// Opens a scope with these assumptions. By the clauses of the problem alone, never by learnt
    /// ones, unit closure under the assumptions of all open scopes and these either conflicts, or
    /// lists the literals of problem variables that are new. It fails exactly where the closure
    /// conflicts or an open scope has failed. Where literals are implied the trail is kept, one
    /// level for each scope, and the next test only adds a level to it: so the clauses must be
    /// those that it is built for, unless `edited` was called. Where a trail is kept, `steps` rises
    /// by one for each literal by which it grew: by no more than literals are listed, are assumed,
    /// and guards are active, where one was kept before or no scope was open. Want of memory opens
    /// no scope.
    pub fn test<L: Ledger>(&mut self, store: &Store, assumed: Lits, steps: &mut Steps<L>) -> Tested
        requires depth { length self.old.scopes < 4294967295 }
        requires assumed { IsWithin store.now.vars assumed }
        requires open { IsWithin store.now.vars (scope_assumed self.old.scopes) }
        requires failing { StillFail (problem_of store.now) self.old.scopes }
        requires kept { IsFor self.old.kept self.old.scopes (base_of store.now) }
        ensures answers { TellsTest (problem_of store.now) self.old.scopes assumed result }
        ensures opens { Opens self.old assumed result self.new }
        ensures reasons { AreReasoned (problem_of store.now) self.old
            → AreReasoned (problem_of store.now) self.new }
        ensures kept { IsFor self.new.kept self.new.scopes (base_of store.now) }
        ensures keeps { KeepsTrail result self.new.kept }
        ensures ticks { Ticks result self.old self.new steps.old steps.new }
        ensures few { TicksFew (problem_of store.now) self.old assumed result steps.old steps.new }
    {
        let kept = mem::replace(&mut self.kept, None);
        let mut noted = mem::replace(&mut self.noted, Vec::new(self.alloc));
        match self.find(store, kept, &mut noted, &assumed, steps) {
            Ok(Outcome::Listed(listing, kept)) => match self.open_listing(assumed, listing) {
                Ok(lits) => {
                    self.kept = Some(kept);
                    self.noted = noted;
                    Tested::Implied(lits)
                }
                Err(_) => Tested::NoMemory,
            },
            Ok(Outcome::Failing(w)) => match self.open_failing(assumed, w) {
                Ok(lits) => Tested::Failed(lits),
                Err(_) => Tested::NoMemory,
            },
            Err(_) => Tested::NoMemory,
        }
    }

    /// The kept trail is given up, and the next test builds it anew. To be called where clauses of
    /// the problem came or went. Takes no memory.
    pub fn edited(&mut self)
        ensures { self.new ≡ record self.old { kept = None } }
    {
        self.kept = None;
    }

    /// What a test with these assumptions finds: the failing set of an open scope, or what unit
    /// closure gives. There are no marks in `noted` before and after.
    fn find<L: Ledger>(
        &self,
        store: &Store,
        kept: Option<Kept>,
        noted: &mut Vec<bool>,
        assumed: &Lits,
        steps: &mut Steps<L>,
    ) -> Result<Outcome, AllocError>
        requires none { AreNoted [] noted.old.items }
        requires depth { length self.now.scopes < 4294967295 }
        requires assumed { IsWithin store.now.vars assumed.now }
        requires open { IsWithin store.now.vars (scope_assumed self.now.scopes) }
        requires failing { StillFail (problem_of store.now) self.now.scopes }
        requires kept { IsFor kept self.now.scopes (base_of store.now) }
        ensures finds { IfOk result (Finds (problem_of store.now) self.now.scopes assumed.now) }
        ensures builds { IfOk result (Builds store.now self.now.scopes assumed.now) }
        ensures counts { IfOk result (Counts (length (kept_lits kept)) steps.old steps.new) }
        ensures none { OnOk result (AreNoted [] noted.new.items) }
        ensures little { IfOk result
            (GrowsLittle (problem_of store.now) self.now.scopes assumed.now (kept_lits kept)) }
    {
        match first_failing(self.levels.as_slice()) {
            Some(w) => return Ok(Outcome::Failing(w.copy()?)),
            None => {}
        }
        let mut given = Lits::new(self.alloc);
        self.push_assumed(&mut given)?;
        append(&mut given, assumed.as_slice())?;
        let levels = self.levels.as_slice();
        find(
            self.alloc,
            store,
            kept,
            noted,
            levels,
            assumed.as_slice(),
            given.as_slice(),
            steps,
        )
    }

    /// Opens a scope whose test failed, and gives the failing set.
    fn open_failing(&mut self, assumed: Lits, w: Lits) -> Result<Lits, AllocError>
        requires depth { length self.old.scopes < 4294967295 }
        requires chosen { IsSublist w (scope_assumed self.old.scopes ++ assumed) }
        ensures told { IfOk result (λ ls. ls ≡ w) }
        ensures scopes { OnOk result
            (self.new.scopes ≡ self.old.scopes ++ record { assumed = assumed; found = failing w }
            ∷ []) }
        ensures reasons { OnOk result
            ((p : Problem) → AreReasoned p self.old → AreReasoned p self.new) }
        ensures kept { self.new.kept ≡ self.old.kept }
        ensures err { OnErr result (self.new ≡ self.old) }
    {
        let told = w.copy()?;
        self.levels.reserve(1)?;
        self.levels
            .push_reserved(Level::new(assumed, Finding::Failing(w)));
        Ok(told)
    }

    /// Opens a scope that lists literals with their reasons, and gives the literals.
    fn open_listing(&mut self, assumed: Lits, listing: Implied) -> Result<Lits, AllocError>
        requires depth { length self.old.scopes < 4294967295 }
        requires found { (p : Problem) × (k : Kept)
            × Finds p self.old.scopes assumed (Outcome.Listed listing k) }
        ensures told { IfOk result (λ ls. ls ≡ listing.lits) }
        ensures scopes { OnOk result
            (self.new.scopes ≡ self.old.scopes ++ record {
              assumed = assumed;
              found = listed listing.lits;
            } ∷ []) }
        ensures reasons { OnOk result
            ((p : Problem) (k : Kept) → Finds p self.old.scopes assumed (Outcome.Listed listing k)
            → AreReasoned p self.old → AreReasoned p self.new) }
        ensures kept { self.new.kept ≡ self.old.kept }
        ensures err { OnErr result (self.new ≡ self.old) }
    {
        let Implied { lits, mut reasons } = listing;
        let told = lits.copy()?;
        self.levels.reserve(1)?;
        self.reasons.append(&mut reasons)?;
        self.levels
            .push_reserved(Level::new(assumed, Finding::Listed(lits)));
        Ok(told)
    }

    /// Closes the scope that was opened last, and takes its level off the trail that is kept. Takes
    /// no memory.
    pub fn untest(&mut self)
        requires { 1 ≤ length self.old.scopes }
        ensures scopes { self.new.scopes ≡ take (length self.old.scopes - 1) self.old.scopes }
        ensures reasons { (p : Problem) → AreReasoned p self.old → AreReasoned p self.new }
        ensures kept { (s : StoreView) → IsFor self.old.kept self.old.scopes s
            → IsFor self.new.kept self.new.scopes s }
        ensures keeps { is_some self.new.kept ≡ is_some self.old.kept }
    {
        let last = self.levels.len() - 1;
        let left = self.reasons.len() - self.levels[last].listed().len();
        self.levels.truncate(last);
        self.reasons.truncate(left);
        self.kept = cut(mem::replace(&mut self.kept, None), last as u32);
    }

    /// Whether an open scope lists the literal.
    pub fn lists(&self, m: Lit) -> bool
        ensures { IsTrue result ↔ Contains (scope_listed self.now.scopes) m }
    {
        is_listed(self.levels.as_slice(), m)
    }

    /// The assumptions of the open scopes, put behind the others in order. After an error what
    /// stood there stands in front.
    pub fn push_assumed(&self, to: &mut Lits) -> Result<(), AllocError>
        ensures ok { OnOk result (to.new ≡ to.old ++ scope_assumed self.now.scopes) }
        ensures err { OnErr result ((added : List ℕ) × (to.new ≡ to.old ++ added)) }
    {
        for level in &self.levels {
            append(to, level.assumed())?;
        }
        Ok(())
    }

    /// The literals that imply a listed one together: the opposites of the other literals of the
    /// clause that implied it, each once, guards among them. `NotImplied` comes exactly where no
    /// open scope lists the literal.
    pub fn reasons(&self, alloc: Global, m: Lit) -> Reasoned
        ensures { TellsReasons self.now m result }
    {
        let _count = self.reasons.len();
        match place_of(self.levels.as_slice(), m) {
            None => Reasoned::NotImplied,
            Some(place) => match self.reasons[place].copy(alloc) {
                Ok(reasons) => Reasoned::Reasons(reasons),
                Err(_) => Reasoned::NoMemory,
            },
        }
    }
}
