ghost use Rattle.std.specs.Prelude.{◌≡◌, ◌≢◌, ℕ, IfOk};
ghost use Rattle.gi_prop.specs.Attached.{IsAttached, HasSameKeys};

use gi_lit::{Lit, Lits, MAX_VAR};
use gi_prop::{Prop, Trail};
use gi_store::{Key, Store};
use std::alloc::{AllocError, Global};
use std::marker::Model;

/// A store, a trail over its variables, and a propagator that goes with both. Contracts see the
/// propagator.
#[derive(Drop)]
pub struct Parts {
    alloc: Global,
    store: Store,
    trail: Trail,
    prop: Prop,
}

impl Model for Parts {
    ghost use Rattle.gi_prop.specs.Attached.{Attached, Goes};

    ghost Value = { Attached };

    ghost view = { λ p. p.prop };

    ghost invariant = { λ p. Goes p.prop p.store p.trail };
}

/// The literals that DIMACS writes as these numbers.
fn lits(alloc: Global, numbers: &[i32]) -> Result<Lits, AllocError> {
    let mut clause = Lits::new(alloc);
    for n in numbers {
        if let Some(l) = Lit::from_dimacs(*n) {
            clause.push(l)?;
        }
    }
    Ok(clause)
}

impl Parts {
    /// The variables are 1 to `vars`, as far as a store has them.
    pub fn new(alloc: Global, vars: u32) -> Result<Parts, AllocError> {
        let vars = vars.min(MAX_VAR);
        let mut store = Store::new(alloc);
        let mut trail = Trail::new(alloc);
        store.grow(vars)?;
        trail.grow(vars)?;
        Ok(Parts {
            alloc,
            store,
            trail,
            prop: Prop::new(alloc),
        })
    }

    /// Stores a plain clause and attaches it.
    fn attach(&mut self, clause: &[Lit]) -> Result<Key, AllocError>
        ensures attached { IfOk result (λ key. IsAttached self.new key) }
        ensures fresh { IfOk result (λ key. ¬ IsAttached self.old key) }
        ensures kept { (k : ℕ) → IsAttached self.old k → IsAttached self.new k }
    {
        if !self.store.is_plain(clause) {
            return Err(AllocError);
        }
        let key = self.store.add(clause)?;
        if self.store.vars() as usize > self.trail.vars()
            || !self.store.is_within(self.store.clause(key))
        {
            return Err(AllocError);
        }
        self.prop.attach(&self.store, &self.trail, key)?;
        Ok(key)
    }

    /// Stores and attaches the clause that DIMACS writes as these numbers.
    pub fn attach_numbers(&mut self, numbers: &[i32]) -> Result<Key, AllocError>
        ensures attached { IfOk result (λ key. IsAttached self.new key) }
        ensures fresh { IfOk result (λ key. ¬ IsAttached self.old key) }
        ensures kept { (k : ℕ) → IsAttached self.old k → IsAttached self.new k }
    {
        let clause = lits(self.alloc, numbers)?;
        self.attach(clause.as_slice())
    }

    pub fn detach(&mut self, key: Key)
        requires { IsAttached self.old key }
        ensures { (k : ℕ) → k ≢ key → IsAttached self.old k → IsAttached self.new k }
    {
        self.prop.detach(key);
    }

    /// Makes a variable true that has no value. Whether it has none.
    pub fn decide(&mut self, number: i32) -> bool
        ensures { self.new ≡ self.old }
    {
        let Some(l) = Lit::from_dimacs(number) else {
            return false;
        };
        if l.var().index() as usize > self.trail.vars() || self.trail.value(l).is_some() {
            return false;
        }
        self.trail.assign(l, None);
        true
    }

    /// Whether propagation ends without a conflict, and with this trail.
    pub fn closes(&mut self, numbers: &[i32]) -> bool
        ensures { HasSameKeys self.old self.new }
    {
        let conflict = self.prop.propagate(&self.store, &mut self.trail);
        let trail = self.trail.lits().iter().map(|l| l.to_dimacs());
        conflict.is_none() && trail.eq(numbers.iter().copied())
    }

    pub fn watches(&self, key: Key) -> Option<(Lit, Lit)>
        requires { IsAttached self.now key }
    {
        self.prop.watches(key)
    }
}
