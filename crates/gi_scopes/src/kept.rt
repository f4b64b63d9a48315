ghost use Rattle.std.specs.Prelude.{◌≡◌, ◌<◌, ◌≤◌, ℕ, List, ◌++◌, ◌∷◌, [], length, take, All, Contains, IfOk, IfNone, IfSome, OnOk, is_some};
ghost use Rattle.std.specs.Option.{option_map};
ghost use Rattle.gi_lit.specs.Closure.{IsClosed};
ghost use Rattle.gi_lit.specs.Problem.{full};
ghost use Rattle.gi_store.specs.StoreView.{StoreView, IsWithin, problem_of};
ghost use Rattle.gi_prop.specs.Attached.{Goes};
ghost use Rattle.gi_model.specs.State.{Scope, Found, scope_assumed};
ghost use Rattle.gi_scopes.specs.declared.clash.Clash.TheVariants.{Clause};
ghost use Rattle.gi_scopes.specs.Under.{base_of, AreProblemKeys, AddsImplied, IsClash};
ghost use Rattle.gi_scopes.specs.Built.{Reaches, IsBuilt, IsFresh, IsFor, HasReached, Stays, Rises, IsListedAbove};

use crate::clash::Clash;
use crate::close::{assume, attach_problem};
use crate::level::Level;
use gi_lit::Lit;
use gi_prop::laws::edits_keep_goes;
use gi_prop::{Prop, Trail};
use gi_store::{Key, Store};
use std::alloc::{AllocError, Global};

/// A trail, with the propagator of the problem's clauses, and for how many scopes it may have
/// literals that aren't listed: where more are open, each of its literals is assumed, listed, or a
/// guard's.
#[derive(Drop)]
pub struct Kept {
    pub(crate) prop: Prop,
    pub(crate) trail: Trail,
    pub(crate) unlisted: u32,
}

/// What unit closure comes to: a closed trail, or one with a conflict.
#[derive(Drop)]
pub(crate) enum Reach {
    Closed(Kept),
    Stuck(Kept, Clash),
}

impl Kept {
    /// An empty trail, and the propagator with each clause of the problem.
    fn start(alloc: Global, store: &Store) -> Result<Kept, AllocError>
        ensures { IfOk result (λ k. IsFresh k store.now) }
    {
        let mut trail = Trail::new(alloc);
        trail.grow(store.vars())?;
        let mut prop = Prop::new(alloc);
        attach_problem(store, &trail, &mut prop)?;
        Ok(Kept {
            prop,
            trail,
            unlisted: u32::MAX,
        })
    }

    /// Adds what the clauses of the problem force, until they force nothing more or one of them is
    /// false.
    fn close(&mut self, store: &Store) -> Option<Clash>
        requires goes { Goes self.old.prop (base_of store.now) self.old.trail }
        requires keys { AreProblemKeys self.old.prop (base_of store.now) }
        ensures adds { AddsImplied (base_of store.now) self.old.trail self.new.trail }
        ensures goes { Goes self.new.prop (base_of store.now) self.new.trail }
        ensures keys { AreProblemKeys self.new.prop (base_of store.now) }
        ensures closed { IfNone result
            (IsClosed (full (problem_of (base_of store.now))) self.new.trail.lits) }
        ensures clash { (given : List ℕ)
            → IfSome result (IsClash store.now given self.new.trail.lits) }
    {
        edits_keep_goes();
        let _vars = store.vars();
        let conflict = self.prop.propagate(store, &mut self.trail);
        clash_of(conflict)
    }

    /// Begins a level with these assumptions, and adds what the clauses of the problem force. Why
    /// that conflicts, if it does.
    fn raise(&mut self, store: &Store, assumed: &[Lit]) -> Result<Option<Clash>, AllocError>
        requires level { length self.old.trail.level_starts < 4294967295 }
        requires within { IsWithin self.old.trail.vars assumed.now }
        requires goes { Goes self.old.prop (base_of store.now) self.old.trail }
        requires keys { AreProblemKeys self.old.prop (base_of store.now) }
        ensures vars { OnOk result (self.new.trail.vars ≡ self.old.trail.vars) }
        ensures reaches { OnOk result
            (Reaches (base_of store.now) assumed.now self.old.trail self.new.trail) }
        ensures goes { OnOk result (Goes self.new.prop (base_of store.now) self.new.trail) }
        ensures keys { OnOk result (AreProblemKeys self.new.prop (base_of store.now)) }
        ensures whole { IfOk result
            (λ o. IfNone o (All (Contains self.new.trail.lits) assumed.now)) }
        ensures closed { IfOk result
            (λ o. IfNone o (IsClosed (full (problem_of (base_of store.now))) self.new.trail.lits)) }
        ensures clash { IfOk result
            (λ o. IfSome o (IsClash store.now assumed.now self.new.trail.lits)) }
    {
        let _level = self.trail.level();
        self.trail.push_level()?;
        let clashing = assume(&mut self.trail, assumed);
        let _assumed = self.trail.level();
        match clashing {
            Some(l) => Ok(Some(Clash::Opposite(l))),
            None => Ok(self.close(store)),
        }
    }
}

/// The conflict of a false clause.
fn clash_of(conflict: Option<Key>) -> Option<Clash>
    ensures { result ≡ option_map Clause conflict }
{
    match conflict {
        None => None,
        Some(key) => Some(Clash::Clause(key)),
    }
}

/// For how many scopes a kept trail may have literals that aren't listed, where these are more.
pub(crate) fn listed_above(kept: &Option<Kept>, levels: &[Level]) -> Option<u32>
    ensures { IfSome result (λ n. IsListedAbove kept.now (length levels.now) n) }
{
    match kept {
        Some(kept) if (kept.unlisted as usize) < levels.len() => Some(kept.unlisted),
        _ => None,
    }
}

/// What is left where the levels above this one are taken away. Takes no memory.
pub(crate) fn cut(kept: Option<Kept>, level: u32) -> Option<Kept>
    ensures built { (scopes : List Scope) (s : StoreView) → level ≤ length scopes
        → IsFor kept scopes s → IsFor result (take level scopes) s }
    ensures same { is_some result ≡ is_some kept }
{
    let Some(kept) = kept else {
        return None;
    };
    let Kept {
        prop,
        mut trail,
        unlisted,
    } = kept;
    if trail.level() <= level {
        return Some(Kept {
            prop,
            trail,
            unlisted,
        });
    }
    trail.cancel_to(level);
    Some(Kept {
        prop,
        trail,
        unlisted,
    })
}

/// Levels for these scopes, on what follows with no assumption.
fn raise_all(store: &Store, kept: Kept, levels: &[Level]) -> Result<Reach, AllocError>
    requires depth { length levels.now ≤ 4294967295 }
    requires within { IsWithin store.now.vars (scope_assumed levels.now) }
    requires vars { store.now.vars ≤ kept.trail.vars }
    requires built { IsBuilt kept [] (base_of store.now) }
    ensures { IfOk result (HasReached store.now levels.now) }
{
    let mut kept = kept;
    for level in levels {
        let _level = kept.trail.level();
        match kept.raise(store, level.assumed())? {
            Some(clash) => return Ok(Reach::Stuck(kept, clash)),
            None => {}
        }
    }
    Ok(Reach::Closed(kept))
}

/// The closure under the assumptions of these scopes, a level for each.
fn build(alloc: Global, store: &Store, levels: &[Level]) -> Result<Reach, AllocError>
    requires depth { length levels.now ≤ 4294967295 }
    requires within { IsWithin store.now.vars (scope_assumed levels.now) }
    ensures { IfOk result (HasReached store.now levels.now) }
{
    let mut kept = Kept::start(alloc, store)?;
    match kept.close(store) {
        Some(clash) => Ok(Reach::Stuck(kept, clash)),
        None => raise_all(store, kept, levels),
    }
}

/// The same, with what is kept of it.
fn base(
    alloc: Global,
    store: &Store,
    kept: Option<Kept>,
    levels: &[Level],
) -> Result<Reach, AllocError>
    requires depth { length levels.now ≤ 4294967295 }
    requires within { IsWithin store.now.vars (scope_assumed levels.now) }
    requires kept { IsFor kept levels.now (base_of store.now) }
    ensures reached { IfOk result (HasReached store.now levels.now) }
    ensures stays { IfOk result (Stays kept) }
{
    match kept {
        None => build(alloc, store, levels),
        Some(kept) => {
            let mut kept = kept;
            let _level = kept.trail.level();
            kept.trail.grow(store.vars())?;
            Ok(Reach::Closed(kept))
        }
    }
}

/// The closure under the assumptions of these scopes and one more.
pub(crate) fn climb(
    alloc: Global,
    store: &Store,
    kept: Option<Kept>,
    levels: &[Level],
    assumed: &[Lit],
) -> Result<Reach, AllocError>
    requires depth { length levels.now < 4294967295 }
    requires within { IsWithin store.now.vars (scope_assumed levels.now) }
    requires assumed { IsWithin store.now.vars assumed.now }
    requires kept { IsFor kept levels.now (base_of store.now) }
    ensures reached { IfOk result
        (λ r. (f : Found) → HasReached store.now (levels.now
        ++ record { assumed = assumed.now; found = f } ∷ []) r) }
    ensures rises { IfOk result (Rises kept) }
{
    match base(alloc, store, kept, levels)? {
        Reach::Stuck(kept, clash) => Ok(Reach::Stuck(kept, clash)),
        Reach::Closed(kept) => {
            let mut kept = kept;
            let _level = kept.trail.level();
            match kept.raise(store, assumed)? {
                None => Ok(Reach::Closed(kept)),
                Some(clash) => Ok(Reach::Stuck(kept, clash)),
            }
        }
    }
}
