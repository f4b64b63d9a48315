ghost use Rattle.std.specs.Prelude.{◌≡◌, ◌+◌, ◌++◌, ◌==◌, ◌&&◌, ◌||◌, ◌↔◌, IsTrue, IfOk, All};
ghost use Rattle.std.specs.List.{list_any, list_all};
ghost use Rattle.gi_lit.specs.Lists.{IsSublist};
ghost use Rattle.gi_lit.specs.Truth.{IsConsequence, Fail};
ghost use Rattle.gi_lit.specs.Closure.{Conflicts};
ghost use Rattle.gi_lit.specs.Literals.{opposite};
ghost use Rattle.gi_lit.specs.Problem.{in_force, has};
ghost use Rattle.gi_model.specs.State.{all_assumed, scope_listed};
ghost use Rattle.gi_model.specs.Tests.{IsListed, Implies, MustFail, AnswersTest};
ghost use Rattle.gi_reference.specs.Search.{forces, HaveCauses};

use crate::closure::{closure, conflicts};
use crate::lists::{has_all, has_some, is_distinct, is_sublist};
use crate::machine::Plain;
use crate::outcome::Outcome;
use crate::scopes::{assumptions, listed, some_failed};
use crate::store::Store;
use crate::truth::{fails, is_consequence};
use gi_lit::{Clause, Lit, Lits};
use gi_model::Reply;
use gi_model::lists::{append, has_lit};
use std::alloc::{AllocError, Global};

/// Whether the opposites of the clause's other literals are among these.
fn others_false(clause: &[Lit], l: Lit, earlier: &[Lit]) -> bool
    ensures { result ≡ list_all (λ m. (l == m) || has earlier.now (opposite m)) clause.now }
{
    let code = l.code();
    clause
        .iter()
        .all(|m| code == m.code() || has_lit(earlier, m.not()))
}

/// Whether the clause forces the literal, after these.
pub fn forces(clause: &[Lit], l: Lit, earlier: &[Lit]) -> bool
    ensures { result ≡ forces clause.now l earlier.now }
{
    if !has_lit(clause, l) {
        return false;
    }
    others_false(clause, l, earlier)
}

/// Whether some clause forces the literal, after these.
fn has_cause(clauses: &[Clause], l: Lit, earlier: &[Lit]) -> bool
    ensures { result ≡ list_any (λ c. forces c l earlier.now) clauses.now }
{
    clauses.iter().any(|c| forces(c.as_slice(), l, earlier))
}

/// Whether each literal is forced by a clause, after the start and the literals before it.
fn have_causes(
    alloc: Global,
    clauses: &[Clause],
    start: &[Lit],
    lits: &[Lit],
) -> Result<bool, AllocError>
    ensures { IfOk result (λ b. IsTrue b ↔ HaveCauses clauses.now start.now lits.now) }
{
    let mut earlier = Lits::new(alloc);
    append(&mut earlier, start)?;
    for l in lits {
        if !has_cause(clauses, *l, earlier.as_slice()) {
            return Ok(false);
        }
        earlier.push(*l)?;
    }
    Ok(true)
}

/// Whether each literal is true wherever the clauses and the given literals are.
fn are_consequences(
    alloc: Global,
    clauses: &[Clause],
    given: &[Lit],
    lits: &[Lit],
) -> Result<bool, AllocError>
    ensures { IfOk result (λ b. IsTrue b ↔ All (IsConsequence clauses.now given.now) lits.now) }
{
    for l in lits {
        let follows = is_consequence(alloc, clauses, given, *l)?;
        if !follows {
            return Ok(false);
        }
    }
    Ok(true)
}

impl Store {
    /// Whether these may be listed with the given assumptions, after those listed earlier.
    fn may_list(
        &self,
        alloc: Global,
        given: &[Lit],
        earlier: &[Lit],
        lits: &[Lit],
    ) -> Result<bool, AllocError>
        ensures { IfOk result (λ b. IsTrue b ↔ IsListed self.now given.now earlier.now lits.now) }
    {
        if !self.are_plain(lits) {
            return Ok(false);
        }
        let forced = self.in_force(given)?;
        let follow = are_consequences(alloc, forced.as_slice(), given, lits)?;
        if !follow {
            return Ok(false);
        }
        let whole = self.full()?;
        let mut start = Lits::new(alloc);
        append(&mut start, given)?;
        append(&mut start, earlier)?;
        have_causes(alloc, whole.as_slice(), start.as_slice(), lits)
    }

    /// Whether a test may list these: nothing conflicts, none stands twice or was there, and none
    /// is left out.
    fn may_imply(
        &self,
        alloc: Global,
        given: &[Lit],
        earlier: &[Lit],
        lits: &[Lit],
    ) -> Result<bool, AllocError>
        ensures { IfOk result (λ b. IsTrue b ↔ ((¬ Conflicts (in_force self.now given.now)
            given.now) × Implies self.now given.now earlier.now lits.now)) }
    {
        let forced = self.in_force(given)?;
        let outcome = closure(alloc, forced.as_slice(), given)?;
        match outcome {
            Outcome::Conflict => Ok(false),
            Outcome::Whole(closed) => {
                let mut there = Lits::new(alloc);
                append(&mut there, given)?;
                append(&mut there, earlier)?;
                if !is_distinct(lits) {
                    return Ok(false);
                }
                if has_some(there.as_slice(), lits) {
                    return Ok(false);
                }
                append(&mut there, lits)?;
                if !has_all(there.as_slice(), closed.as_slice()) {
                    return Ok(false);
                }
                self.may_list(alloc, given, earlier, lits)
            }
        }
    }
}

impl Plain {
    /// The assumptions of all open scopes, then the pending ones.
    pub(crate) fn all_assumed(&self) -> Result<Lits, AllocError>
        ensures { IfOk result (λ ls. ls ≡ all_assumed self.now) }
    {
        let mut all = assumptions(self.alloc, self.scopes.as_slice())?;
        append(&mut all, self.pending.as_slice())?;
        Ok(all)
    }

    /// Whether a test must fail.
    fn must_fail(&self) -> Result<bool, AllocError>
        ensures { IfOk result (λ b. IsTrue b ↔ MustFail self.now) }
    {
        if some_failed(self.scopes.as_slice()) {
            return Ok(true);
        }
        let given = self.all_assumed()?;
        let forced = self.store.in_force(given.as_slice())?;
        conflicts(self.alloc, forced.as_slice(), given.as_slice())
    }

    /// Whether a test may list these.
    fn may_find(&self, lits: &Lits) -> Result<bool, AllocError>
        ensures { IfOk result (λ b. IsTrue b ↔ ((¬ MustFail self.now)
            × Implies self.now.problem (all_assumed self.now) (scope_listed self.now.scopes)
            lits.now)) }
    {
        let wanted = lits.as_slice();
        if some_failed(self.scopes.as_slice()) {
            return Ok(false);
        }
        let given = self.all_assumed()?;
        let earlier = listed(self.alloc, self.scopes.as_slice())?;
        self.store
            .may_imply(self.alloc, given.as_slice(), earlier.as_slice(), wanted)
    }

    /// Whether a test may fail with these.
    fn may_find_failing(&self, failed: &Lits) -> Result<bool, AllocError>
        ensures { IfOk result (λ b. IsTrue b ↔ (MustFail self.now
            × IsSublist failed.now (all_assumed self.now)
            × Fail (in_force self.now.problem failed.now) failed.now)) }
    {
        let some = failed.as_slice();
        let given = self.all_assumed()?;
        if !is_sublist(some, given.as_slice()) {
            return Ok(false);
        }
        let must_fail = self.must_fail()?;
        if !must_fail {
            return Ok(false);
        }
        let forced = self.store.in_force(some)?;
        fails(self.alloc, forced.as_slice(), some)
    }

    /// Whether a test may be answered so.
    pub(crate) fn answers_test(&self, reply: &Reply) -> Result<bool, AllocError>
        ensures { IfOk result (λ b. IsTrue b ↔ AnswersTest self.now reply.now) }
    {
        match reply {
            Reply::Implied(lits) => self.may_find(lits),
            Reply::Failed(failed) => self.may_find_failing(failed),
            _ => Ok(false),
        }
    }
}
