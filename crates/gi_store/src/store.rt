ghost use Rattle.std.specs.Prelude.{◌≡◌, ◌≢◌, ◌≤◌, ◌<◌, ◌+◌, ◌/◌, ℕ, List, [], ◌∷◌, ◌++◌, length, max, All, Contains, IfOk, OnOk, OnErr, IsTrue, ◌↔◌, option_copied};
ghost use Rattle.gi_lit.specs.Literals.{max_var};
ghost use Rattle.gi_lit.specs.Problem.{IsPlain, IsProblemVar, lit_count};
ghost use Rattle.gi_store.specs.StoreView.{StoreView, Keeps, IsLive, Holds, IsWithin, problem_of, known_of, keys_of, entries, with_plain, with_under, with_learnt, without_guard_of, trimmed, at_place};
ghost use Rattle.gi_store.specs.Whole.{IsWhole, IsKind};
ghost use Rattle.gi_lit.specs.Lists.{IsDistinct};
ghost use Rattle.gi_store.specs.Answers.{GivesGuard};

use crate::group_key::GroupKey;
use crate::guards::{add_kinds, drop_var, guarded, make_room, take_guard};
use crate::key::Key;
use crate::kind::VarKind;
use crate::new_guard::NewGuard;
use crate::slots::{
    forget_first, forget_groups, forget_naming, insert, insert_group, more_lits, room_of,
};
use gi_lit::{Lit, Lits, MAX_VAR, Var};
use slab::Slab;
use std::alloc::{AllocError, Global};
use std::marker::Model;

/// A problem with its guards, and the learnt clauses, each clause under a key. Contracts see the
/// lists of plain clauses, of groups of guards with a clause, and of learnt clauses, the oldest
/// first, each with its key.
#[derive(Drop)]
pub struct Store {
    alloc: Global,
    kinds: Vec<VarKind>,
    active: Vec<Var>,
    freed: Vec<Var>,
    slots: Slab<Lits>,
    plain: Vec<Key>,
    groups: Vec<GroupKey>,
    learnt: Vec<Key>,
    lits: u64,
}

impl Model for Store {
    ghost use Rattle.std.specs.Prelude.{length, vec_capacity};
    ghost use Rattle.gi_store.specs.StoreView.{StoreView};
    ghost use Rattle.gi_store.specs.Stored.{held_of, IsCounted};

    ghost Value = { StoreView };

    ghost view = { λ s. held_of (length s.kinds.items) s.slots s.plain.items s.groups.items
        s.learnt.items s.active.items s.freed.items };

    ghost invariant = { λ s. IsCounted s.kinds.items s.slots s.plain.items s.groups.items
        s.learnt.items s.active.items s.freed.items (vec_capacity s.freed) s.lits };
}

impl Store {
    /// A store with no variable and no clause.
    pub fn new(alloc: Global) -> Store
        ensures { result ≡ record {
          vars = 0;
          plain = [];
          groups = [];
          active = [];
          freed = [];
          learnt = [];
        } }
    {
        Store {
            alloc,
            kinds: Vec::new(alloc),
            active: Vec::new(alloc),
            freed: Vec::new(alloc),
            slots: Slab::new(alloc),
            plain: Vec::new(alloc),
            groups: Vec::new(alloc),
            learnt: Vec::new(alloc),
            lits: 0,
        }
    }

    /// Makes the count of variables at least `n`; the new ones are variables of the problem.
    /// Unchanged after an error.
    pub fn grow(&mut self, n: u32) -> Result<(), AllocError>
        requires { n ≤ max_var }
        ensures ok { OnOk result (self.new ≡ record self.old { vars = max self.old.vars n }) }
        ensures keeps { Keeps self.old self.new }
        ensures err { OnErr result (self.new ≡ self.old) }
    {
        let more = (n as usize).saturating_sub(self.kinds.len());
        self.kinds.reserve(more)?;
        add_kinds(&mut self.kinds, more);
        Ok(())
    }

    /// Adds a plain clause of variables of the problem, and picks its key. Unchanged after an
    /// error.
    pub fn add(&mut self, c: &[Lit]) -> Result<Key, AllocError>
        requires { IsPlain (problem_of self.old) c.now }
        ensures ok { IfOk result (λ key. self.new ≡ with_plain key c.now self.old) }
        ensures fresh { IfOk result (λ key. ¬ IsLive self.old key) }
        ensures live { IfOk result (λ key. IsLive self.new key) }
        ensures keeps { Keeps self.old self.new }
        ensures err { OnErr result (self.new ≡ self.old) }
    {
        let clause = Lits::from_vec(Vec::from_slice(self.alloc, c)?);
        let more = more_lits(self.lits, c.len())?;
        let key = insert(&mut self.slots, &mut self.plain, clause)?;
        self.lits = more;
        Ok(key)
    }

    /// Adds a clause of variables of the problem under active guards, one at least, and picks its
    /// key. It is stored with the guards' negative literals behind it, in order; one that is named
    /// twice stands twice. Unchanged after an error.
    pub fn add_under(&mut self, guards: &[Var], c: &[Lit]) -> Result<Key, AllocError>
        requires some { 0 < length guards.now }
        requires guards { All (Contains self.old.active) guards.now }
        requires plain { IsPlain (problem_of self.old) c.now }
        ensures ok { IfOk result (λ key. self.new ≡ with_under key guards.now c.now self.old) }
        ensures fresh { IfOk result (λ key. ¬ IsLive self.old key) }
        ensures live { IfOk result (λ key. IsLive self.new key) }
        ensures keeps { Keeps self.old self.new }
        ensures err { OnErr result (self.new ≡ self.old) }
    {
        let clause = guarded(self.alloc, guards, c)?;
        let more = more_lits(self.lits, clause.len() - 1)?;
        let key = insert_group(&mut self.slots, &mut self.groups, clause, guards.len())?;
        self.lits = more;
        Ok(key)
    }

    /// Adds a learnt clause behind the others, and picks its key. Unchanged after an error.
    pub fn learn(&mut self, c: &[Lit]) -> Result<Key, AllocError>
        requires { IsWithin self.old.vars c.now }
        ensures ok { IfOk result (λ key. self.new ≡ with_learnt key c.now self.old) }
        ensures fresh { IfOk result (λ key. ¬ IsLive self.old key) }
        ensures live { IfOk result (λ key. IsLive self.new key) }
        ensures keeps { Keeps self.old self.new }
        ensures err { OnErr result (self.new ≡ self.old) }
    {
        let clause = Lits::from_vec(Vec::from_slice(self.alloc, c)?);
        let key = insert(&mut self.slots, &mut self.learnt, clause)?;
        Ok(key)
    }

    /// Gives the guard that was freed last, else the next variable, and makes it active. It makes
    /// the room in which the guard is freed later.
    /// `Limit` comes exactly where no guard is freed and the count of variables is `MAX_VAR`.
    pub fn new_guard(&mut self) -> NewGuard
        ensures gives { GivesGuard self.old result self.new }
        ensures keeps { Keeps self.old self.new }
    {
        if self.freed.is_empty() && self.kinds.len() >= MAX_VAR as usize {
            return NewGuard::Limit;
        }
        match make_room(&mut self.kinds, &mut self.active, &mut self.freed) {
            Ok(()) => NewGuard::Guard(take_guard(
                &mut self.kinds,
                &mut self.active,
                &mut self.freed,
            )),
            Err(_) => NewGuard::NoMemory,
        }
    }

    /// Frees an active guard: the groups that name it go, each learnt clause with its variable
    /// goes, all else stays in order. Takes no memory, and time linear in the guards of groups and
    /// in what was learnt.
    pub fn remove_guard(&mut self, guard: Var)
        requires { Contains self.old.active guard }
        ensures after { self.new ≡ without_guard_of guard self.old }
        ensures keeps { Keeps self.old self.new }
    {
        self.lits -= forget_groups(&mut self.slots, &mut self.groups, guard);
        forget_naming(&mut self.slots, &mut self.learnt, guard);
        drop_var(&mut self.active, guard);
        self.kinds[(guard.index() - 1) as usize] = VarKind::Freed;
        self.freed.push_reserved(guard);
    }

    /// Takes the older half of the learnt clauses away, rounded down. Takes no memory, and time
    /// linear in their number.
    pub fn trim(&mut self)
        ensures after { self.new ≡ trimmed self.old }
        ensures keeps { Keeps self.old self.new }
    {
        let half = self.learnt.len() / 2;
        forget_first(&mut self.slots, &mut self.learnt, half);
    }

    /// What the variable is. In constant time.
    pub fn kind(&self, v: Var) -> VarKind
        ensures { IsKind self.now v result }
    {
        match self.kinds.get((v.index() - 1) as usize) {
            Some(kind) => *kind,
            None => VarKind::Beyond,
        }
    }

    /// Whether it is a variable of the problem.
    pub fn is_problem_var(&self, v: Var) -> bool
        ensures { IsTrue result ↔ IsProblemVar (problem_of self.now) v }
    {
        matches!(self.kind(v), VarKind::Problem)
    }

    /// Whether it is an active guard.
    pub fn is_active(&self, v: Var) -> bool
        ensures { IsTrue result ↔ Contains self.now.active v }
    {
        let _ = &self.active;
        matches!(self.kind(v), VarKind::Active)
    }

    /// Whether each of the variables is an active guard.
    pub fn are_active(&self, guards: &[Var]) -> bool
        ensures { IsTrue result ↔ All (Contains self.now.active) guards.now }
    {
        for g in guards {
            if !self.is_active(*g) {
                return false;
            }
        }
        true
    }

    /// Whether each literal is of a variable of the problem.
    pub fn is_plain(&self, c: &[Lit]) -> bool
        ensures { IsTrue result ↔ IsPlain (problem_of self.now) c.now }
    {
        for l in c {
            if !self.is_problem_var(l.var()) {
                return false;
            }
        }
        true
    }

    /// Whether each literal's variable is within the count.
    pub fn is_within(&self, c: &[Lit]) -> bool
        ensures { IsTrue result ↔ IsWithin self.now.vars c.now }
    {
        for l in c {
            if l.var().index() > self.vars() {
                return false;
            }
        }
        true
    }

    /// The count of variables.
    pub fn vars(&self) -> u32
        ensures value { result ≡ self.now.vars }
        ensures whole { IsWhole self.now }
        ensures keys { IsDistinct (keys_of self.now) }
    {
        let _ = &self.slots;
        self.kinds.len() as u32
    }

    /// Whether a guard was freed and not given again. In constant time.
    pub fn has_freed(&self) -> bool
        ensures { IsTrue result ↔ (self.now.freed ≢ []) }
    {
        !self.freed.is_empty()
    }

    /// Tells what is true of every store, and does nothing.
    pub fn is_whole(&self)
        ensures whole { IsWhole self.now }
        ensures keys { IsDistinct (keys_of self.now) }
        ensures few { length self.now.plain + length self.now.groups + length self.now.learnt
            < 18446744073709551616 }
    {
        let _ = room_of(&self.slots);
    }

    /// How many plain clauses and groups there are.
    pub fn problem(&self) -> u64
        ensures { result ≡ length self.now.plain + length self.now.groups }
    {
        self.plain.len() as u64 + self.groups.len() as u64
    }

    /// How many literals the plain clauses and the groups have as given: those of the clauses, and
    /// one for each guard of a group after the first. In constant time.
    pub fn lits(&self) -> u64
        ensures { result ≡ lit_count (problem_of self.now) }
    {
        self.lits
    }

    /// How many learnt clauses there are.
    pub fn known(&self) -> u64
        ensures { result ≡ length (known_of self.now) }
    {
        self.learnt.len() as u64
    }

    /// The learnt clause at a place, from 1, the oldest first. None exactly where none stands
    /// there. In constant time.
    pub fn known_at(&self, i: u64) -> Option<&[Lit]>
        ensures { option_copied result ≡ at_place (known_of self.now) i }
    {
        if i == 0 {
            return None;
        }
        let place = (i - 1) as usize;
        if place >= self.learnt.len() {
            return None;
        }
        Some(self.clause(self.learnt[place]))
    }

    /// The key of the clause at a place, from 1, of the plain clauses, then the groups, then the
    /// learnt clauses. None exactly where none stands there. In constant time.
    pub fn key_at(&self, i: u64) -> Option<Key>
        ensures { result ≡ at_place (keys_of self.now) i }
    {
        if i == 0 {
            return None;
        }
        let place = (i - 1) as usize;
        if place < self.plain.len() {
            return Some(self.plain[place]);
        }
        let place = place - self.plain.len();
        if place < self.groups.len() {
            return Some(self.groups[place].key);
        }
        let place = place - self.groups.len();
        if place < self.learnt.len() {
            return Some(self.learnt[place]);
        }
        None
    }

    /// The clause of a key that is in use. In constant time.
    pub fn clause(&self, key: Key) -> &[Lit]
        requires { IsLive self.now key }
        ensures holds { Holds self.now key result.now }
        ensures only { (c : List ℕ) → Holds self.now key c → result.now ≡ c }
    {
        match self.slots.get(key.slot()) {
            Some(clause) => clause.as_slice(),
            None => unreachable!(),
        }
    }
}
