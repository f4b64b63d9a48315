ghost use Rattle.std.specs.Prelude.{◌≡◌, ◌+◌, ◌-◌, ◌↔◌, IsTrue, IfOk, true, length, slice_index_or, []};
ghost use Rattle.gi_model.specs.Replies.{status_of, waited};
ghost use Rattle.gi_model.specs.Effects.{pausing, resuming, stopping};
ghost use Rattle.gi_model.specs.History.{MayCome, AnswersModel, Answers, IsRefused, wait_takes_memory, takes_memory, Allows};
ghost use Rattle.gi_model.specs.Views.{solve_of};
ghost use Rattle.gi_reference.specs.Waits.{is_wait};

use crate::machine::Plain;
use crate::replies::{
    is_bye, is_clause, is_done, is_guard, is_known, is_model, is_next_started, is_no_memory,
    is_refusal, is_status, is_unsat, is_vars,
};
use gi_lit::Clause;
use gi_model::{Call, Refusal, Reply, Solve, Status, Verdict, Why, is_live};
use std::alloc::AllocError;

fn is_wait(call: &Call) -> bool
    ensures { result ≡ is_wait call.now }
{
    match call {
        Call::Wait => true,
        _ => false,
    }
}

/// Whether the answer says how the solve stands.
fn shows(solve: &Solve, reply: &Reply) -> bool
    ensures { IsTrue result ↔ (reply.now ≡ status_of (solve_of solve.now)) }
{
    match solve {
        Solve::Idle => is_refusal(reply, Refusal::NoSolve),
        Solve::Running(run) => is_status(reply, run.serial, Status::Running(run.spent)),
        Solve::Paused(run) => is_status(reply, run.serial, Status::Paused(run.spent)),
        Solve::Ended(serial, verdict) => is_status(reply, *serial, verdict.status()),
    }
}

/// Whether the answer says how the solve stands, were it paused.
fn shows_paused(solve: &Solve, reply: &Reply) -> bool
    ensures { IsTrue result ↔ (reply.now ≡ status_of (pausing (solve_of solve.now))) }
{
    match solve {
        Solve::Running(run) => is_status(reply, run.serial, Status::Paused(run.spent)),
        Solve::Paused(_) => shows(solve, reply),
        Solve::Idle => shows(solve, reply),
        Solve::Ended(_, _) => shows(solve, reply),
    }
}

/// Whether the answer says how the solve stands, were it resumed.
fn shows_resumed(solve: &Solve, reply: &Reply) -> bool
    ensures { IsTrue result ↔ (reply.now ≡ status_of (resuming (solve_of solve.now))) }
{
    match solve {
        Solve::Paused(run) => is_status(reply, run.serial, Status::Running(run.spent)),
        Solve::Running(_) => shows(solve, reply),
        Solve::Idle => shows(solve, reply),
        Solve::Ended(_, _) => shows(solve, reply),
    }
}

/// Whether the answer says how the solve stands, were it stopped.
fn shows_stopped(solve: &Solve, reply: &Reply) -> bool
    ensures { IsTrue result ↔ (reply.now ≡ status_of (stopping (solve_of solve.now))) }
{
    match solve {
        Solve::Running(run) => is_status(reply, run.serial, Status::Unknown(Why::Stopped)),
        Solve::Paused(run) => is_status(reply, run.serial, Status::Unknown(Why::Stopped)),
        Solve::Idle => shows(solve, reply),
        Solve::Ended(_, _) => shows(solve, reply),
    }
}

/// Whether the answer is that of a wait.
fn shows_end(solve: &Solve, reply: &Reply) -> bool
    ensures { IsTrue result ↔ (reply.now ≡ waited (solve_of solve.now)) }
{
    match solve {
        Solve::Ended(serial, Verdict::Unsat(failed)) => is_unsat(reply, *serial, failed),
        Solve::Ended(_, Verdict::Sat(_)) => shows(solve, reply),
        Solve::Ended(_, Verdict::Unknown(_)) => shows(solve, reply),
        Solve::Idle => shows(solve, reply),
        Solve::Running(_) => shows(solve, reply),
        Solve::Paused(_) => shows(solve, reply),
    }
}

impl Plain {
    /// Whether the call may come.
    fn may_come(&self, call: &Call) -> bool
        ensures { IsTrue result ↔ MayCome self.now call.now }
    {
        if call.is_work() {
            return true;
        }
        if is_wait(call) {
            return !is_live(self);
        }
        call.fits()
    }

    /// Whether a wait would copy a failing set.
    fn wait_takes_memory(&self) -> bool
        ensures { result ≡ wait_takes_memory self.now.solve }
    {
        match &self.solve {
            Solve::Ended(_, Verdict::Unsat(_)) => true,
            _ => false,
        }
    }

    /// Whether want of memory may be the answer, once the call isn't refused.
    fn takes_memory(&self, call: &Call) -> bool
        ensures { result ≡ takes_memory self.now call.now }
    {
        match call {
            Call::Pause => false,
            Call::Resume => false,
            Call::Stop => false,
            Call::Poll => false,
            Call::Untest => false,
            Call::DropGuard(_) => false,
            Call::Known => false,
            Call::Bye => false,
            Call::Shut => false,
            Call::Wait => self.wait_takes_memory(),
            Call::Work(_) => is_live(self),
            _ => true,
        }
    }

    /// Whether the answer is want of memory, where it may come.
    fn wants_memory(&self, call: &Call, reply: &Reply) -> bool
        ensures { IsTrue result ↔ ((reply.now ≡ Reply.NoMemory)
            × (takes_memory self.now call.now ≡ true)) }
    {
        if !is_no_memory(reply) {
            return false;
        }
        self.takes_memory(call)
    }

    /// The learnt clause of that number, from 1; the empty one where there is none.
    fn known_clause(&self, i: u32) -> Result<Clause, AllocError>
        ensures { IfOk result (λ c. c ≡ slice_index_or self.now.known (i - 1) []) }
    {
        let place = (i as usize).saturating_sub(1);
        match self.known.get(place) {
            Some(clause) => clause.copy(),
            None => Ok(Clause::new(self.alloc)),
        }
    }

    /// Whether the answer is the model of a solve that found one.
    fn answers_model(&self, reply: &Reply) -> Result<bool, AllocError>
        ensures { IfOk result (λ b. IsTrue b ↔ AnswersModel self.now self.now.solve reply.now) }
    {
        match &self.solve {
            Solve::Ended(_, Verdict::Sat(values)) => {
                let lits = self.store.model(self.alloc, values.as_slice())?;
                Ok(is_model(reply, &lits))
            }
            Solve::Ended(_, Verdict::Unsat(_)) => Ok(false),
            Solve::Ended(_, Verdict::Unknown(_)) => Ok(false),
            Solve::Idle => Ok(false),
            Solve::Running(_) => Ok(false),
            Solve::Paused(_) => Ok(false),
        }
    }

    /// Whether the answer is the learnt clause of that number.
    fn answers_clause(&self, i: u32, reply: &Reply) -> Result<bool, AllocError>
        ensures { IfOk result (λ b. IsTrue b ↔ (reply.now
            ≡ Reply.Clause (slice_index_or self.now.known (i - 1) []))) }
    {
        let clause = self.known_clause(i)?;
        Ok(is_clause(reply, &clause))
    }

    /// Whether the answer tells the refusal, or is want of memory to read a payload in its place.
    fn is_refused(call: &Call, reply: &Reply, refusal: Refusal) -> bool
        ensures { IsTrue result ↔ IsRefused call.now reply.now refusal }
    {
        is_refusal(reply, refusal)
            || is_no_memory(reply) && call.is_load() && refusal.is_of_payload()
    }

    /// Whether a call that isn't refused may be answered so, want of memory left out.
    fn answers(&self, call: &Call, reply: &Reply) -> Result<bool, AllocError>
        ensures { IfOk result (λ b. IsTrue b ↔ Answers self.now call.now reply.now) }
    {
        match call {
            Call::Vars(n) => Ok(is_vars(reply, self.store.vars().max(*n))),
            Call::Add(_) => Ok(is_done(reply)),
            Call::NewGuard => Ok(is_guard(reply, self.store.next_guard())),
            Call::Under(_, _) => Ok(is_done(reply)),
            Call::DropGuard(_) => Ok(is_done(reply)),
            Call::Assume(_) => Ok(is_done(reply)),
            Call::Test => self.answers_test(reply),
            Call::Untest => Ok(is_done(reply)),
            Call::Reasons(m) => self.answers_reasons(*m, reply),
            Call::Solve(_) => Ok(is_next_started(reply, self.serial)),
            Call::Pause => Ok(shows_paused(&self.solve, reply)),
            Call::Resume => Ok(shows_resumed(&self.solve, reply)),
            Call::Stop => Ok(shows_stopped(&self.solve, reply)),
            Call::Poll => Ok(shows(&self.solve, reply)),
            Call::Wait => Ok(shows_end(&self.solve, reply)),
            Call::Model => self.answers_model(reply),
            Call::Known => Ok(is_known(reply, self.known.len() as u64)),
            Call::KnownClause(i) => self.answers_clause(*i, reply),
            Call::LoadCnf(bytes) => self.answers_load(bytes, reply),
            Call::Bye => Ok(is_bye(reply)),
            Call::Shut => Ok(is_done(reply)),
            Call::Work(mark) => self.answers_work(*mark, reply),
        }
    }

    /// Whether the entry, this call with this reply, is allowed here: the call may come, and the
    /// reply is its refusal where the table names one, else one of its answers, or want of memory
    /// where it may come. Tries all assignments where the answer speaks of truth: for small
    /// problems.
    pub fn allows(&self, call: &Call, reply: &Reply) -> Result<bool, AllocError>
        ensures { IfOk result (λ b. IsTrue b ↔ Allows self.now call.now reply.now) }
    {
        if !self.may_come(call) {
            return Ok(false);
        }
        match self.refusal(call)? {
            Some(refusal) => Ok(Plain::is_refused(call, reply, refusal)),
            None => {
                if self.wants_memory(call, reply) {
                    return Ok(true);
                }
                self.answers(call, reply)
            }
        }
    }
}
