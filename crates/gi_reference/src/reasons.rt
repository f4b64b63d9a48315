ghost use Rattle.std.specs.Prelude.{◌≡◌, ◌++◌, ◌==◌, ◌&&◌, ◌↔◌, not, take_while, IsTrue, IfOk, OnOk};
ghost use Rattle.std.specs.List.{list_any, list_all};
ghost use Rattle.gi_lit.specs.Problem.{has};
ghost use Rattle.gi_lit.specs.Literals.{opposite};
ghost use Rattle.gi_model.specs.Tests.{before, Explains, AnswersReasons};
ghost use Rattle.gi_reference.specs.Search.{explains};

use crate::listing::forces;
use crate::lists::{has_all, is_distinct};
use crate::machine::Plain;
use crate::scopes::Level;
use gi_lit::{Clause, Lit, Lits};
use gi_model::Reply;
use gi_model::lists::{append, has_lit};
use std::alloc::{AllocError, Global};

fn is_equal(l: Lit, m: Lit) -> bool
    ensures { result ≡ (l == m) }
{
    l.code() == m.code()
}

/// Puts the literals before m behind those of the list; all of them where m isn't there.
fn append_before(to: &mut Lits, lits: &[Lit], m: Lit) -> Result<(), AllocError>
    ensures { OnOk result (to.new ≡ to.old ++ take_while (λ l. not (l == m)) lits.now) }
{
    for l in lits {
        if is_equal(*l, m) {
            return Ok(());
        }
        to.push(*l)?;
    }
    Ok(())
}

/// The assumptions up to the scope that lists m, and what is listed before m.
fn before(alloc: Global, levels: &[Level], m: Lit) -> Result<Lits, AllocError>
    ensures { IfOk result (λ ls. ls ≡ before levels.now m) }
{
    let mut all = Lits::new(alloc);
    for level in levels {
        append(&mut all, level.assumed())?;
        append_before(&mut all, level.listed(), m)?;
        if level.lists(m) {
            return Ok(all);
        }
    }
    Ok(all)
}

/// Whether each reason is the opposite of a literal of the clause other than m.
fn are_opposites(clause: &[Lit], m: Lit, reasons: &[Lit]) -> bool
    ensures { result ≡ list_all (λ r. not (opposite r == m) && has clause.now (opposite r))
        reasons.now }
{
    let code = m.code();
    reasons
        .iter()
        .all(|r| r.not().code() != code && has_lit(clause, r.not()))
}

/// Whether the reasons are the opposites of the clause's literals other than m.
fn explains(clause: &[Lit], m: Lit, reasons: &[Lit]) -> bool
    ensures { result ≡ explains clause.now m reasons.now }
{
    if !forces(clause, m, reasons) {
        return false;
    }
    are_opposites(clause, m, reasons)
}

/// Whether the reasons are those that some clause has for m.
fn is_explained(clauses: &[Clause], m: Lit, reasons: &[Lit]) -> bool
    ensures { result ≡ list_any (λ c. explains c m reasons.now) clauses.now }
{
    clauses.iter().any(|c| explains(c.as_slice(), m, reasons))
}

impl Plain {
    /// Whether these may be the reasons for m.
    fn may_explain(&self, m: Lit, reasons: &Lits) -> Result<bool, AllocError>
        ensures { IfOk result (λ b. IsTrue b ↔ Explains self.now m reasons.now) }
    {
        let wanted = reasons.as_slice();
        if !is_distinct(wanted) {
            return Ok(false);
        }
        let earlier = before(self.alloc, self.scopes.as_slice(), m)?;
        if !has_all(earlier.as_slice(), wanted) {
            return Ok(false);
        }
        let whole = self.store.full()?;
        Ok(is_explained(whole.as_slice(), m, wanted))
    }

    /// Whether the question for the reasons for m may be answered so.
    pub(crate) fn answers_reasons(&self, m: Lit, reply: &Reply) -> Result<bool, AllocError>
        ensures { IfOk result (λ b. IsTrue b ↔ AnswersReasons self.now m reply.now) }
    {
        match reply {
            Reply::Reasons(reasons) => self.may_explain(m, reasons),
            _ => Ok(false),
        }
    }
}
