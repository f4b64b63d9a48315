ghost use Rattle.std.specs.Prelude.{◌≡◌, ◌+◌, ◌-◌, ◌/◌, ◌<◌, ◌≤◌, ◌==◌, ◌&&◌, ◌||◌, not, max, nat_le, nat_lt, length, false, List, ℕ, IfOk, OnOk, IfSome, IfNone, sum_by, [], ◌∷◌, ◌++◌};
ghost use Rattle.std.specs.List.{list_any, list_all};
ghost use Rattle.gi_lit.specs.Problem.{Group, as_given, clause_count, lit_count, has, is_problem_var, is_usable, empty_problem, grown, with_clause, with_clauses, with_group, with_guard, next_guard, without_guard, without_groups, are_given, negatives, guarded, full, in_force, forced};
ghost use Rattle.gi_model.specs.Limits.{most_clauses, most_lits};
ghost use Rattle.gi_lit.specs.Literals.{max_var};
ghost use Rattle.gi_model.specs.Refusals.{some_unusable, is_full, is_past};
ghost use Rattle.gi_reference.specs.Loading.{tops};
ghost use Rattle.gi_model.specs.Replies.{model_from, model_of};

use crate::lists::{append_copies, has_var, without};
use gi_lit::{Clause, Clauses, Guards, Lit, Lits, MAX_VAR, Var, top_variable};
use gi_model::lists::{append, count_given, has_lit};
use gi_model::{MAX_CLAUSES, MAX_LITS};
use std::alloc::{AllocError, Global};
use std::marker::Model;
use std::mem;

/// A clause that is in force under its guards.
#[derive(Drop)]
pub struct Guarded {
    guards: Guards,
    clause: Clause,
}

impl Model for Guarded {
    ghost use Rattle.gi_lit.specs.Problem.{Group};

    ghost Value = { Group };

    ghost view = { λ q. record { guards = q.guards; clause = q.clause } };
}

/// The problem.
#[derive(Drop)]
pub struct Store {
    alloc: Global,
    vars: u32,
    plain: Vec<Clause>,
    groups: Vec<Guarded>,
    active: Vec<Var>,
    freed: Vec<Var>,
}

impl Model for Store {
    ghost use Rattle.std.specs.Prelude.{◌≤◌};
    ghost use Rattle.gi_lit.specs.Problem.{Problem};
    ghost use Rattle.gi_lit.specs.Literals.{max_var};

    ghost Value = { Problem };

    ghost invariant = { λ s. s.vars ≤ max_var };

    ghost view = { λ s. record {
      vars = s.vars;
      plain = s.plain.items;
      groups = s.groups.items;
      active = s.active.items;
      freed = s.freed.items;
    } };
}

/// What is left of the room once the clauses are in; None where they don't fit.
fn left_by_clauses(clauses: &[Clause], room: u128) -> Option<u128>
    ensures some { IfSome result (λ left. left + sum_by length clauses.now ≡ room) }
    ensures none { IfNone result (room < sum_by length clauses.now) }
{
    let mut left = room;
    for clause in clauses {
        left = left.checked_sub(clause.len() as u128)?;
    }
    Some(left)
}

fn left_by_groups(groups: &[Guarded], room: u128) -> Option<u128>
    ensures some { IfSome result (λ left. left + sum_by as_given groups.now ≡ room) }
    ensures none { IfNone result (room < sum_by as_given groups.now) }
{
    let mut left = room;
    for group in groups {
        left = left.checked_sub(group.lits())?;
    }
    Some(left)
}

/// Whether each guard's positive literal is given.
fn are_given(given: &[Lit], guards: &[Var]) -> bool
    ensures { result ≡ are_given given.now guards.now }
{
    guards.iter().all(|g| has_lit(given, g.positive()))
}

/// The negative literals of guards, in order.
fn negatives(alloc: Global, guards: &[Var]) -> Result<Lits, AllocError>
    ensures { IfOk result (λ ls. ls ≡ negatives guards.now) }
{
    let lits = guards.iter().map(|g| g.negative()).collect(alloc)?;
    Ok(Lits::from_vec(lits))
}

/// The greatest variable of clauses, 0 for none.
fn top_of_all(clauses: &[Clause]) -> u32
    ensures { result ≡ tops clauses.now }
{
    let mut top = 0u32;
    for clause in clauses {
        top = top.max(top_variable(clause.as_slice()));
    }
    top
}

/// The groups that don't name the guard, in order.
#[tactic(auto, unfolding(gi_lit::specs::Problem::without_groups))]
fn without_groups(alloc: Global, groups: Vec<Guarded>, g: Var) -> Result<Vec<Guarded>, AllocError>
    ensures { IfOk result (λ kept. kept.items ≡ without_groups g groups.items) }
{
    groups
        .into_iter()
        .filter(|q| !has_var(q.guards.as_slice(), g))
        .collect(alloc)
}

impl Guarded {
    /// The group as one clause: a guard is false, or its clause holds.
    fn whole(&self, alloc: Global) -> Result<Clause, AllocError>
        ensures { IfOk result (λ c. c ≡ guarded self.now) }
    {
        let mut clause = self.clause.copy()?;
        let negatives = negatives(alloc, self.guards.as_slice())?;
        append(&mut clause, negatives.as_slice())?;
        Ok(clause)
    }

    /// How many literals it has as given.
    fn lits(&self) -> u128
        ensures { result ≡ as_given self.now }
    {
        count_given(self.guards.as_slice(), self.clause.as_slice())
    }

    /// Puts its clause behind those of the list where its guards are given.
    fn append_forced(&self, to: &mut Vec<Clause>, given: &[Lit]) -> Result<(), AllocError>
        ensures { OnOk result (to.new.items ≡ to.old.items ++ forced given.now (self.now ∷ [])) }
    {
        if are_given(given, self.guards.as_slice()) {
            to.push(self.clause.copy()?)?;
        }
        Ok(())
    }
}

impl Store {
    pub fn new(alloc: Global) -> Store
        ensures { result ≡ empty_problem }
    {
        Store {
            alloc,
            vars: 0,
            plain: Vec::new(alloc),
            groups: Vec::new(alloc),
            active: Vec::new(alloc),
            freed: Vec::new(alloc),
        }
    }

    pub fn vars(&self) -> u32
        ensures { result ≡ self.now.vars }
    {
        self.vars
    }

    /// The guard that comes next: the one freed last, else a new variable.
    pub fn next_guard(&self) -> u32
        ensures { result ≡ next_guard self.now }
    {
        match self.freed.first() {
            Some(g) => g.index(),
            None => self.vars + 1,
        }
    }

    pub fn is_problem_var(&self, v: Var) -> bool
        ensures { result ≡ is_problem_var self.now v }
    {
        let index = v.index();
        index >= 1
            && index <= self.vars
            && !has_var(self.active.as_slice(), v)
            && !has_var(self.freed.as_slice(), v)
    }

    pub fn is_active(&self, g: Var) -> bool
        ensures { result ≡ has self.now.active g }
    {
        has_var(self.active.as_slice(), g)
    }

    pub fn is_usable(&self, l: Lit) -> bool
        ensures { result ≡ is_usable self.now l }
    {
        self.is_problem_var(l.var()) || l.var().index() > self.vars
    }

    pub fn some_unusable(&self, lits: &[Lit]) -> bool
        ensures { result ≡ some_unusable self.now lits.now }
    {
        lits.iter().any(|l| !self.is_usable(*l))
    }

    /// Whether one clause more, of these literals and with so many as given, would be too much.
    pub fn is_full(&self, clause: &[Lit], lits: u128) -> bool
        ensures { result ≡ is_full self.now clause.now lits }
    {
        top_variable(clause) > MAX_VAR || self.has_too_many_clauses(1) || self.lacks_lits(lits)
    }

    /// Whether some literal of the clauses is neither of a problem variable nor of one that isn't
    /// there yet.
    pub fn some_have_unusable(&self, clauses: &Clauses) -> bool
        ensures { result ≡ list_any (some_unusable self.now) clauses.now }
    {
        clauses
            .as_slice()
            .iter()
            .any(|c| self.some_unusable(c.as_slice()))
    }

    /// Whether the problem would be too great with so many variables and these clauses.
    pub fn is_past_with(&self, vars: u32, clauses: &Clauses) -> bool
        ensures { result ≡ is_past (with_clauses clauses.now (grown vars self.now)) }
    {
        if self.has_too_many_vars(vars, clauses.as_slice()) {
            return true;
        }
        if self.has_too_many_clauses(clauses.len()) {
            return true;
        }
        self.lacks_lits_of(clauses.as_slice())
    }

    /// Whether there would be too many variables.
    fn has_too_many_vars(&self, vars: u32, clauses: &[Clause]) -> bool
        ensures { result ≡ nat_lt max_var (max (max self.now.vars vars) (tops clauses.now)) }
    {
        self.vars.max(vars).max(top_of_all(clauses)) > MAX_VAR
    }

    /// Whether so many clauses more would be too many.
    fn has_too_many_clauses(&self, count: usize) -> bool
        ensures { result ≡ nat_lt most_clauses (clause_count self.now + count) }
    {
        self.plain.len() as u128 + self.groups.len() as u128 + count as u128 > MAX_CLAUSES as u128
    }

    /// Whether the literals of these clauses more would be too many.
    fn lacks_lits_of(&self, clauses: &[Clause]) -> bool
        ensures { result ≡ nat_lt most_lits (lit_count self.now + sum_by length clauses.now) }
    {
        let room = match left_by_clauses(clauses, MAX_LITS as u128) {
            Some(room) => room,
            None => return true,
        };
        match left_by_clauses(self.plain.as_slice(), room) {
            Some(left) => left_by_groups(self.groups.as_slice(), left).is_none(),
            None => true,
        }
    }

    /// Plain clauses more.
    pub fn add_all(&mut self, clauses: &Clauses) -> Result<(), AllocError>
        ensures { OnOk result (self.new ≡ with_clauses clauses.now self.old) }
    {
        for clause in clauses.as_slice() {
            self.add(clause)?;
        }
        Ok(())
    }

    /// Whether so many literals more would be too many.
    fn lacks_lits(&self, count: u128) -> bool
        ensures { result ≡ nat_lt most_lits (lit_count self.now + count) }
    {
        let room = match (MAX_LITS as u128).checked_sub(count) {
            Some(room) => room,
            None => return true,
        };
        match left_by_clauses(self.plain.as_slice(), room) {
            Some(left) => left_by_groups(self.groups.as_slice(), left).is_none(),
            None => true,
        }
    }

    /// Whether no guard is left to hand out.
    pub fn lacks_guard(&self) -> bool
        ensures { result ≡ ((length self.now.freed == 0) && nat_le max_var self.now.vars) }
    {
        self.freed.len() == 0 && self.vars >= MAX_VAR
    }

    /// What a model tells of the variable at this place, from 0: its literal, if it's a problem
    /// variable.
    #[tactic(auto, unfolding(gi_model::specs::Replies::model_from))]
    fn told(&self, place: usize, value: bool) -> Option<Lit>
        ensures some { IfSome result (λ l. model_from self.now (place + 1) (value ∷ []) ≡ l ∷ []) }
        ensures none { IfNone result (model_from self.now (place + 1) (value ∷ []) ≡ []) }
    {
        if place >= self.vars as usize {
            return None;
        }
        match Var::new(place as u32 + 1) {
            Some(v) => {
                if !self.is_problem_var(v) {
                    return None;
                }
                if value {
                    Some(v.positive())
                } else {
                    Some(v.negative())
                }
            }
            None => unreachable!(),
        }
    }

    /// Puts what a model tells of the variable at this place behind the literals of the list.
    fn append_told(&self, to: &mut Lits, place: usize, value: bool) -> Result<(), AllocError>
        ensures { OnOk result (to.new ≡ to.old ++ model_from self.now (place + 1) (value ∷ [])) }
    {
        match self.told(place, value) {
            Some(l) => {
                to.push(l)?;
                Ok(())
            }
            None => Ok(()),
        }
    }

    /// The true literal of each problem variable, rising.
    pub fn model(&self, alloc: Global, values: &[bool]) -> Result<Lits, AllocError>
        ensures { IfOk result (λ ls. ls ≡ model_of self.now values.now) }
    {
        let mut lits = Lits::new(alloc);
        for i in 0..values.len() {
            self.append_told(&mut lits, i, values[i])?;
        }
        Ok(lits)
    }

    pub fn grow(&mut self, n: u32)
        requires { n ≤ max_var }
        ensures { self.new ≡ grown n self.old }
    {
        if n > self.vars {
            self.vars = n;
        }
    }

    pub fn add(&mut self, clause: &Clause) -> Result<(), AllocError>
        ensures { OnOk result (self.new ≡ with_clause clause.now self.old) }
    {
        self.plain.push(clause.copy()?)?;
        self.grow(top_variable(clause.as_slice()));
        Ok(())
    }

    pub fn under(&mut self, guards: &Guards, clause: &Clause) -> Result<(), AllocError>
        ensures { OnOk result (self.new ≡ with_group guards.now clause.now self.old) }
    {
        let group = Guarded {
            guards: guards.copy()?,
            clause: clause.copy()?,
        };
        self.groups.push(group)?;
        self.grow(top_variable(clause.as_slice()));
        Ok(())
    }

    /// Its clauses, and each group as one clause.
    pub fn full(&self) -> Result<Vec<Clause>, AllocError>
        ensures { IfOk result (λ cs. cs.items ≡ full self.now) }
    {
        let mut all = Vec::new(self.alloc);
        append_copies(&mut all, self.plain.as_slice())?;
        for group in &self.groups {
            all.push(group.whole(self.alloc)?)?;
        }
        Ok(all)
    }

    /// The clauses in force where the literals are given.
    pub fn in_force(&self, given: &[Lit]) -> Result<Vec<Clause>, AllocError>
        ensures { IfOk result (λ cs. cs.items ≡ in_force self.now given.now) }
    {
        let mut all = Vec::new(self.alloc);
        append_copies(&mut all, self.plain.as_slice())?;
        for group in &self.groups {
            group.append_forced(&mut all, given)?;
        }
        Ok(all)
    }

    /// Whether each literal is of a problem variable.
    pub fn are_plain(&self, lits: &[Lit]) -> bool
        ensures { result ≡ list_all (λ l. is_problem_var self.now (l / 2)) lits.now }
    {
        lits.iter().all(|l| self.is_problem_var(l.var()))
    }

    /// Whether each literal is of a problem variable or an active guard.
    pub fn are_live(&self, lits: &[Lit]) -> bool
        ensures { result ≡ list_all (λ l. is_problem_var self.now (l / 2)
            || has self.now.active (l / 2)) lits.now }
    {
        lits.iter().all(|l| self.is_problem_var(l.var()) || self.is_active(l.var()))
    }

    /// Hands out the guard that was freed last, else a new variable.
    pub fn new_guard(&mut self) -> Result<(), AllocError>
        requires { ((length self.old.freed == 0) && nat_le max_var self.old.vars) ≡ false }
        ensures { OnOk result (self.new ≡ with_guard self.old) }
    {
        if self.freed.len() > 0 {
            let g = self.freed.remove(0);
            self.active.push(g)?;
            return Ok(());
        }
        match Var::new(self.vars + 1) {
            Some(g) => {
                self.active.push(g)?;
                self.vars += 1;
                Ok(())
            }
            None => unreachable!(),
        }
    }

    /// Takes a guard away, and the groups that name it.
    pub fn drop_guard(&mut self, g: Var) -> Result<(), AllocError>
        ensures { OnOk result (self.new ≡ without_guard g self.old) }
    {
        let groups = mem::replace(&mut self.groups, Vec::new(self.alloc));
        self.groups = without_groups(self.alloc, groups, g)?;
        let active = mem::replace(&mut self.active, Vec::new(self.alloc));
        self.active = without(self.alloc, active, g)?;
        self.freed.insert(0, g)?;
        Ok(())
    }
}
