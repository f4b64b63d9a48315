ghost use Rattle.std.specs.Prelude.{◌≡◌, ◌↔◌, IsTrue, IfOk};
ghost use Rattle.gi_lit.specs.Learnt.{IsFresh, IsDerived, AreFresh};

use crate::closure::conflicts;
use crate::lists::{append_copies, has_clause, has_opposites, joined, negation, push_copy};
use crate::store::Store;
use crate::truth::fails;
use gi_lit::{Clause, Lit};
use std::alloc::{AllocError, Global};

impl Store {
    /// Whether the clause is fresh and derived where those are known.
    fn may_learn(&self, alloc: Global, known: &[Clause], clause: &[Lit]) -> Result<bool, AllocError>
        ensures { IfOk result (λ b. IsTrue b ↔ (IsFresh self.now known.now clause.now
            × IsDerived self.now known.now clause.now)) }
    {
        if !self.are_live(clause) {
            return Ok(false);
        }
        if has_opposites(clause) {
            return Ok(false);
        }
        let whole = self.full()?;
        let all = joined(alloc, whole.as_slice(), known)?;
        let there = all.as_slice();
        if has_clause(clause, there) {
            return Ok(false);
        }
        let negation = negation(alloc, clause)?;
        let assumed = negation.as_slice();
        let implied = fails(alloc, whole.as_slice(), assumed)?;
        if !implied {
            return Ok(false);
        }
        conflicts(alloc, there, assumed)
    }

    /// Whether each of the news is fresh and derived, with the earlier ones known.
    pub fn are_fresh(
        &self,
        alloc: Global,
        known: &[Clause],
        news: &[Clause],
    ) -> Result<bool, AllocError>
        ensures { IfOk result (λ b. IsTrue b ↔ AreFresh self.now known.now news.now) }
    {
        let mut learnt = Vec::new(alloc);
        append_copies(&mut learnt, known)?;
        for clause in news {
            let learns = self.may_learn(alloc, learnt.as_slice(), clause.as_slice())?;
            if !learns {
                return Ok(false);
            }
            push_copy(&mut learnt, clause)?;
        }
        Ok(true)
    }
}
