//! What is read of a solver.

ghost use Rattle.std.specs.Prelude.{◌≡◌, ◌+◌, ◌==◌, ◌&&◌, ◌||◌, ◌≤◌, not, nat_le, nat_lt, length, List, ℕ, option_copied};
ghost use Rattle.std.specs.List.{list_any, sum_by};
ghost use Rattle.gi_lit.specs.Problem.{has, is_problem_var, is_usable, clause_count, lit_count};
ghost use Rattle.gi_store.specs.StoreView.{at_place};
ghost use Rattle.gi_model.specs.Limits.{most_clauses, most_lits};
ghost use Rattle.gi_lit.specs.Literals.{max_var};
ghost use Rattle.gi_model.specs.Refusals.{some_unusable, is_full};
ghost use Rattle.gi_core.specs.Content.{content_of};

use crate::solver::Solver;
use gi_lit::{Clause, Lit, MAX_VAR, Var, top_variable};
use gi_model::{MAX_CLAUSES, MAX_LITS};
use gi_store::Store;

/// How many literals the clauses have.
fn count_lits(clauses: &[Clause]) -> usize
    requires { sum_by length clauses.now ≤ most_lits }
    ensures { result ≡ sum_by length clauses.now }
{
    let mut count = 0;
    for clause in clauses {
        count += clause.len();
    }
    count
}

impl Solver {
    /// Its store.
    pub fn store(&self) -> &Store
        ensures { content_of result.now ≡ self.now }
    {
        &self.store
    }

    pub fn vars(&self) -> u32
        ensures { result ≡ self.now.problem.vars }
    {
        self.store.vars()
    }

    pub fn is_problem_var(&self, v: Var) -> bool
        ensures { result ≡ is_problem_var self.now.problem v }
    {
        self.store.is_problem_var(v)
    }

    pub fn is_active(&self, g: Var) -> bool
        ensures { result ≡ has self.now.problem.active g }
    {
        self.store.is_active(g)
    }

    pub fn is_usable(&self, l: Lit) -> bool
        ensures { result ≡ is_usable self.now.problem l }
    {
        self.is_problem_var(l.var()) || l.var().index() > self.vars()
    }

    pub fn some_unusable(&self, lits: &[Lit]) -> bool
        ensures { result ≡ some_unusable self.now.problem lits.now }
    {
        lits.iter().any(|l| !self.is_usable(*l))
    }

    /// Whether one clause more, of these literals and with so many as given, would be too much.
    pub fn is_full(&self, clause: &[Lit], lits: u128) -> bool
        ensures { result ≡ is_full self.now.problem clause.now lits }
    {
        top_variable(clause) > MAX_VAR
            || self.store.problem() >= MAX_CLAUSES
            || self.lacks_lits(lits)
    }

    /// Whether some clause has a literal that isn't usable.
    pub fn some_clause_unusable(&self, clauses: &[Clause]) -> bool
        ensures { result ≡ list_any (some_unusable self.now.problem) clauses.now }
    {
        clauses.iter().any(|c| self.some_unusable(c.as_slice()))
    }

    /// Whether these clauses more would be too many, or have too many literals.
    pub fn lacks_room(&self, clauses: &[Clause]) -> bool
        requires { sum_by length clauses.now ≤ most_lits }
        ensures { result ≡ (nat_lt most_clauses (clause_count self.now.problem + length clauses.now)
            || nat_lt most_lits (lit_count self.now.problem + sum_by length clauses.now)) }
    {
        self.lacks_clauses(clauses.len()) || self.lacks_lits(count_lits(clauses) as u128)
    }

    /// Whether so many clauses more would be too many.
    fn lacks_clauses(&self, count: usize) -> bool
        ensures { result ≡ nat_lt most_clauses (clause_count self.now.problem + count) }
    {
        match self.store.problem().checked_add(count as u64) {
            None => true,
            Some(clauses) => clauses > MAX_CLAUSES,
        }
    }

    /// Whether so many literals more would be too many.
    fn lacks_lits(&self, count: u128) -> bool
        ensures { result ≡ nat_lt most_lits (lit_count self.now.problem + count) }
    {
        match u128::from(self.store.lits()).checked_add(count) {
            None => true,
            Some(lits) => lits > u128::from(MAX_LITS),
        }
    }

    /// Whether no guard is left to hand out.
    pub fn lacks_guard(&self) -> bool
        ensures { result ≡ ((length self.now.problem.freed == 0)
            && nat_le max_var self.now.problem.vars) }
    {
        if self.vars() < MAX_VAR {
            return false;
        }
        !self.has_freed()
    }

    /// Whether a guard was freed and not handed out again.
    fn has_freed(&self) -> bool
        ensures { result ≡ not (length self.now.problem.freed == 0) }
    {
        self.store.has_freed()
    }

    /// How many learnt clauses there are.
    pub fn known(&self) -> u64
        ensures { result ≡ length self.now.known }
    {
        self.store.known()
    }

    /// The learnt clause at a place, from 1, the oldest first. None exactly where none stands
    /// there.
    pub fn known_at(&self, i: u64) -> Option<&[Lit]>
        ensures { option_copied result ≡ at_place self.now.known i }
    {
        self.store.known_at(i)
    }
}
