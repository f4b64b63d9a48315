ghost use Rattle.std.specs.Prelude.{◌≡◌, IfOk, IfSome, IfNone, OnErr, true, false};
ghost use Rattle.gi_model.specs.Effects.{edited, pausing, resuming, stopping};
ghost use Rattle.gi_model.specs.History.{wait_takes_memory};
ghost use Rattle.gi_model.specs.Refusals.{admits, has_model, is_none_yet, paused_assumed};
ghost use Rattle.gi_model.specs.Replies.{status_of, waited};
ghost use Rattle.gi_model.specs.Views.{solve_of, IsModelOf};

use crate::calls::Call;
use crate::refusal::Refusal;
use crate::replies::{Cause, Reply, Status, Verdict};
use crate::run::Run;
use gi_lit::{Assign, Lit};
use std::alloc::AllocError;
use std::mem;

/// The solve.
#[derive(Drop)]
pub enum Solve {
    /// None.
    Idle,
    Running(Run),
    Paused(Run),
    /// One of that serial that ended so.
    Ended(u64, Verdict),
}

impl Solve {
    /// After an edit an ended solve is none.
    pub fn forget(&mut self)
        ensures { solve_of self.new ≡ edited (solve_of self.old) }
    {
        match self {
            Solve::Ended(_, _) => *self = Solve::Idle,
            _ => {}
        }
    }

    /// A running solve rests.
    pub fn pause(&mut self)
        ensures { solve_of self.new ≡ pausing (solve_of self.old) }
    {
        *self = paused(mem::replace(self, Solve::Idle));
    }

    /// A paused solve goes on.
    pub fn resume(&mut self)
        ensures { solve_of self.new ≡ resuming (solve_of self.old) }
    {
        *self = resumed(mem::replace(self, Solve::Idle));
    }

    /// A running or paused solve ends, stopped.
    pub fn stop(&mut self)
        ensures { solve_of self.new ≡ stopping (solve_of self.old) }
    {
        *self = stopped(mem::replace(self, Solve::Idle));
    }

    /// How it stands; without one, that there is none.
    pub fn status(&self) -> Reply
        ensures { result ≡ status_of (solve_of self.now) }
    {
        match self {
            Solve::Idle => Reply::Refused(Refusal::NoSolve),
            Solve::Running(run) => Reply::Status {
                serial: run.serial,
                status: Status::Running(run.spent),
            },
            Solve::Paused(run) => Reply::Status {
                serial: run.serial,
                status: Status::Paused(run.spent),
            },
            Solve::Ended(serial, verdict) => Reply::Status {
                serial: *serial,
                status: verdict.status(),
            },
        }
    }

    /// The answer of a wait.
    pub fn wait(&self) -> Result<Reply, AllocError>
        ensures ok { IfOk result (λ r. r ≡ waited (solve_of self.now)) }
        ensures err { OnErr result (wait_takes_memory (solve_of self.now) ≡ true) }
    {
        match self {
            Solve::Ended(serial, Verdict::Unsat(failed)) => Ok(Reply::Unsat {
                serial: *serial,
                failed: failed.copy()?,
            }),
            _ => Ok(self.status()),
        }
    }

    /// The values of a model, if it ended with one.
    pub fn model(&self) -> Option<&Assign>
        ensures some { IfSome result (λ values. IsModelOf (solve_of self.now) values.now) }
        ensures none { IfNone result (has_model (solve_of self.now) ≡ false) }
    {
        match self {
            Solve::Ended(_, Verdict::Sat(values)) => Some(values),
            _ => None,
        }
    }

    /// Whether it ended with a model.
    pub fn has_model(&self) -> bool
        ensures { result ≡ has_model (solve_of self.now) }
    {
        match self {
            Solve::Ended(_, Verdict::Sat(_)) => true,
            _ => false,
        }
    }

    /// Whether there is none.
    pub fn is_none(&self) -> bool
        ensures { result ≡ is_none_yet (solve_of self.now) }
    {
        match self {
            Solve::Idle => true,
            Solve::Running(_) => false,
            Solve::Paused(_) => false,
            Solve::Ended(_, _) => false,
        }
    }

    /// Whether it admits the call.
    pub fn admits(&self, call: &Call) -> bool
        ensures { result ≡ admits (solve_of self.now) call.now }
    {
        match self {
            Solve::Idle => true,
            Solve::Ended(_, _) => true,
            Solve::Paused(_) => call.while_paused(),
            Solve::Running(_) => call.while_running(),
        }
    }

    /// The assumptions of a paused one; else none.
    pub fn paused_assumed(&self) -> &[Lit]
        ensures { result.now ≡ paused_assumed (solve_of self.now) }
    {
        match self {
            Solve::Paused(run) => run.assumed.as_slice(),
            Solve::Running(_) => &[],
            Solve::Idle => &[],
            Solve::Ended(_, _) => &[],
        }
    }
}

fn paused(solve: Solve) -> Solve
    ensures { solve_of result ≡ pausing (solve_of solve) }
{
    match solve {
        Solve::Running(run) => Solve::Paused(run),
        Solve::Paused(run) => Solve::Paused(run),
        Solve::Idle => Solve::Idle,
        Solve::Ended(serial, verdict) => Solve::Ended(serial, verdict),
    }
}

fn resumed(solve: Solve) -> Solve
    ensures { solve_of result ≡ resuming (solve_of solve) }
{
    match solve {
        Solve::Running(run) => Solve::Running(run),
        Solve::Paused(run) => Solve::Running(run),
        Solve::Idle => Solve::Idle,
        Solve::Ended(serial, verdict) => Solve::Ended(serial, verdict),
    }
}

fn stopped(solve: Solve) -> Solve
    ensures { solve_of result ≡ stopping (solve_of solve) }
{
    match solve {
        Solve::Running(run) => Solve::Ended(
            run.serial,
            Verdict::Unknown(Cause::Stopped(run.serial)),
        ),
        Solve::Paused(run) => Solve::Ended(
            run.serial,
            Verdict::Unknown(Cause::Stopped(run.serial)),
        ),
        Solve::Idle => Solve::Idle,
        Solve::Ended(serial, verdict) => Solve::Ended(serial, verdict),
    }
}
