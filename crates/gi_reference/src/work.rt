ghost use Rattle.std.specs.Prelude.{◌≡◌, ◌+◌, ◌*◌, ◌++◌, ◌<◌, ◌≤◌, ◌↔◌, length, IsTrue, IfOk};
ghost use Rattle.gi_model.specs.State.{live_run};
ghost use Rattle.gi_model.specs.Work.{IsPaced, IsSpent, EndsWork, Works, AnswersWork};
ghost use Rattle.gi_lit.specs.Ends.{EndsNonempty, IsModel, IsFailing};
ghost use Rattle.gi_model.specs.Views.{run_of};
ghost use Rattle.gi_reference.specs.Ends.{EndsWith};

use crate::closure::conflicts;
use crate::lists::{is_sublist, joined};
use crate::machine::Plain;
use crate::replies::is_idle;
use crate::truth::{fails, is_model};
use gi_lit::{Assign, Clause, Lits};
use gi_model::{Cause, MAX_NEWS, Now, Reply, Run, Solve, Verdict, luby};
use std::alloc::AllocError;

/// Whether there is a last clause, and it isn't empty.
fn ends_nonempty(news: &[Clause]) -> bool
    ensures { IsTrue result ↔ EndsNonempty news.now }
{
    if news.len() == 0 {
        return false;
    }
    news[news.len() - 1].len() > 0
}

/// How many clauses the solve has learnt with these news.
fn spent_with(run: &Run, news: &[Clause]) -> u128
    ensures { result ≡ run.now.spent + length news.now }
{
    run.spent as u128 + news.len() as u128
}

/// Whether the news are no more than the slice may learn that has this place among those of its
/// solve, from 0.
fn is_paced(place: u32, news: &[Clause]) -> bool
    ensures { IsTrue result ↔ IsPaced (place + 1) news.now }
{
    is_at_most(news, luby(place))
}

/// Whether the news are at most 32 times so many.
fn is_at_most(news: &[Clause], pace: u64) -> bool
    ensures { IsTrue result ↔ (length news.now ≤ 32 * pace) }
{
    news.len() as u128 <= 32 * pace as u128
}

/// Whether the budget is spent, and the last clause isn't empty.
fn is_spent(run: &Run, news: &[Clause]) -> bool
    ensures { IsTrue result ↔ IsSpent (run_of run.now) news.now }
{
    if spent_with(run, news) != run.budget as u128 {
        return false;
    }
    ends_nonempty(news)
}

/// Whether the end is unknown for that cause.
fn is_unknown(verdict: &Verdict, cause: Cause) -> bool
    ensures { IsTrue result ↔ (verdict.now ≡ Verdict.Unknown cause) }
{
    match verdict {
        Verdict::Unknown(other) => *other == cause,
        Verdict::Sat(_) => false,
        Verdict::Unsat(_) => false,
    }
}

/// Whether a slice ends its solve, unknown for that cause.
fn ends_unknown(now: &Now, cause: Cause) -> bool
    ensures { IsTrue result ↔ (now.now ≡ Now.Ended (Verdict.Unknown cause)) }
{
    match now {
        Now::Ended(verdict) => is_unknown(verdict, cause),
        Now::Live => false,
    }
}

impl Plain {
    /// Whether the values satisfy the clauses in force and the assumptions.
    fn may_satisfy(&self, assumed: &Lits, values: &Assign) -> Result<bool, AllocError>
        ensures { IfOk result (λ b. IsTrue b ↔ IsModel self.now.problem assumed.now values.now) }
    {
        if values.len() != self.store.vars() {
            return Ok(false);
        }
        let forced = self.store.in_force(assumed.as_slice())?;
        Ok(is_model(values.as_slice(), forced.as_slice(), assumed.as_slice()))
    }

    /// Whether these are some of the assumptions, fail, and unit closure over all that is known
    /// finds it.
    fn may_fail(&self, assumed: &Lits, known: &[Clause], failed: &Lits) -> Result<bool, AllocError>
        ensures { IfOk result (λ b. IsTrue b ↔ IsFailing self.now.problem assumed.now known.now
            failed.now) }
    {
        let some = failed.as_slice();
        if !is_sublist(some, assumed.as_slice()) {
            return Ok(false);
        }
        let forced = self.store.in_force(some)?;
        let failing = fails(self.alloc, forced.as_slice(), some)?;
        if !failing {
            return Ok(false);
        }
        let whole = self.store.full()?;
        let all = joined(self.alloc, whole.as_slice(), known)?;
        conflicts(self.alloc, all.as_slice(), some)
    }

    /// Whether a slice that neither was stopped nor spent its budget may end so.
    fn may_end(&self, run: &Run, news: &[Clause], verdict: &Verdict) -> Result<bool, AllocError>
        ensures { IfOk result (λ b. IsTrue b ↔ EndsWith self.now (run_of run.now) news.now
            verdict.now) }
    {
        match verdict {
            Verdict::Sat(values) => self.may_satisfy(&run.assumed, values),
            Verdict::Unsat(failed) => {
                let known = joined(self.alloc, self.known.as_slice(), news)?;
                self.may_fail(&run.assumed, known.as_slice(), failed)
            }
            Verdict::Unknown(_) => Ok(false),
        }
    }

    /// Whether a slice may leave its solve so.
    fn may_leave(
        &self,
        run: &Run,
        mark: u64,
        news: &[Clause],
        now: &Now,
    ) -> Result<bool, AllocError>
        ensures { IfOk result (λ b. IsTrue b ↔ EndsWork self.now (run_of run.now) mark news.now
            now.now) }
    {
        if mark >= run.serial {
            return Ok(ends_unknown(now, Cause::Stopped(mark)));
        }
        if is_spent(run, news) {
            return Ok(ends_unknown(now, Cause::Budget(run.budget)));
        }
        match now {
            Now::Live => Ok(ends_nonempty(news)),
            Now::Ended(verdict) => self.may_end(run, news, verdict),
        }
    }

    /// Whether a slice may learn the news and leave its solve so.
    fn may_work(&self, run: &Run, mark: u64, news: &[Clause], now: &Now) -> Result<bool, AllocError>
        ensures { IfOk result (λ b. IsTrue b ↔ Works self.now (run_of run.now) mark news.now
            now.now) }
    {
        if news.len() > MAX_NEWS as usize {
            return Ok(false);
        }
        if !is_paced(run.slices, news) {
            return Ok(false);
        }
        if spent_with(run, news) > run.budget as u128 {
            return Ok(false);
        }
        let fresh = self
            .store
            .are_fresh(self.alloc, self.known.as_slice(), news)?;
        if !fresh {
            return Ok(false);
        }
        self.may_leave(run, mark, news, now)
    }

    /// Whether a slice of work may be answered so.
    pub(crate) fn answers_work(&self, mark: u64, reply: &Reply) -> Result<bool, AllocError>
        ensures { IfOk result (λ b. IsTrue b ↔ AnswersWork self.now (live_run self.now) mark
            reply.now) }
    {
        if !self.is_alive() {
            return Ok(is_idle(reply));
        }
        match &self.solve {
            Solve::Running(run) => match reply {
                Reply::Worked { news, now } => self.may_work(run, mark, news.as_slice(), now),
                _ => Ok(false),
            },
            Solve::Paused(_) => Ok(is_idle(reply)),
            Solve::Ended(_, _) => Ok(is_idle(reply)),
            Solve::Idle => Ok(is_idle(reply)),
        }
    }
}
