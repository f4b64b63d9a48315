ghost use Rattle.std.specs.Prelude.{◌≡◌, ◌≢◌, ◌∷◌, [], true, MatchBool, IfOk, OnOk};
ghost use Rattle.gi_lit.specs.Problem.{grown, next_guard, with_clause, with_group, with_guard};
ghost use Rattle.gi_model.specs.State.{opening, phase_of};
ghost use Rattle.gi_model.specs.Effects.{accepted, dropped};
ghost use Rattle.gi_model.specs.Fits.{fits};
ghost use Rattle.gi_example.specs.Told.{HasEdited, IsTrueOf};

use crate::fault::Fault;
use crate::found::Found;
use gi_cdcl::NoBrake;
use gi_core::Core;
use gi_lit::{Guards, Lit, Lits, Var};
use gi_model::{Call, Phase, Reply, Status};
use std::alloc::Global;

/// The solver, as a planner uses it: a call a method.
#[derive(Drop)]
pub struct Planner {
    core: Core,
    alloc: Global,
}

impl Planner {
    /// A new solver.
    pub fn new(alloc: Global) -> Planner
        ensures { result.core ≡ opening }
    {
        Planner {
            core: Core::new(alloc),
            alloc,
        }
    }

    // Makes a call that is answered `Done`.
    fn make(&mut self, call: Call) -> Result<(), Fault>
        requires fits { fits call ≡ true }
        requires other { call ≢ Call.Wait }
        ensures { OnOk result (self.new.core ≡ accepted self.old.core call Reply.Done) }
    {
        match self.core.step(&call) {
            Reply::Done => Ok(()),
            reply => Err(Fault::Unexpected(reply)),
        }
    }

    /// At least so many variables.
    pub fn grow(&mut self, variables: u32) -> Result<(), Fault>
        ensures { OnOk result (HasEdited (grown variables) self.old.core self.new.core) }
    {
        match self.core.step(&Call::Vars(variables)) {
            Reply::Vars(_) => Ok(()),
            reply => Err(Fault::Unexpected(reply)),
        }
    }

    /// A clause: one of the literals is true.
    pub fn add(&mut self, clause: &[Lit]) -> Result<(), Fault>
        ensures { OnOk result (HasEdited (with_clause clause.now) self.old.core self.new.core) }
    {
        let clause = Lits::of(self.alloc, clause)?;
        self.make(Call::Add(clause))
    }

    /// A guard: an activation literal.
    pub fn guard(&mut self) -> Result<Var, Fault>
        ensures guard { IfOk result (λ guard. guard ≡ next_guard self.old.core.problem) }
        ensures made { OnOk result (HasEdited with_guard self.old.core self.new.core) }
    {
        match self.core.step(&Call::NewGuard) {
            Reply::Guard(guard) => Ok(guard),
            reply => Err(Fault::Unexpected(reply)),
        }
    }

    /// A clause that counts only where the guard is assumed.
    pub fn add_under(&mut self, guard: Var, clause: &[Lit]) -> Result<(), Fault>
        ensures { OnOk result (HasEdited (with_group (guard ∷ []) clause.now) self.old.core
            self.new.core) }
    {
        let guards = Guards::of(self.alloc, &[guard])?;
        let clause = Lits::of(self.alloc, clause)?;
        self.make(Call::Under(guards, clause))
    }

    /// Takes the guard away, with the clauses under it.
    pub fn drop_guard(&mut self, guard: Var) -> Result<(), Fault>
        ensures { OnOk result (self.new.core ≡ dropped guard self.old.core) }
    {
        self.make(Call::DropGuard(guard))
    }

    /// A model in which the clauses under the guard hold too, or what can't hold.
    pub fn solve_with(&mut self, guard: Var) -> Result<Found, Fault>
        ensures { IfOk result (IsTrueOf self.new.core.problem) }
    {
        let assumed = Lits::of(self.alloc, &[guard.positive()])?;
        self.make(Call::Assume(assumed))?;
        match self.core.step(&Call::Solve(u32::MAX)) {
            Reply::Started(_) => self.finish(),
            reply => Err(Fault::Unexpected(reply)),
        }
    }

    // Whether a solve is running.
    fn is_live(&self) -> bool
        ensures { MatchBool result (phase_of self.now.core ≡ Phase.Live)
            (phase_of self.now.core ≢ Phase.Live) }
    {
        matches!(self.core.phase(), Phase::Live)
    }

    // Works until the solve has ended.
    fn finish(&mut self) -> Result<Found, Fault>
        ensures { IfOk result (IsTrueOf self.new.core.problem) }
    {
        for _ in 0..u64::MAX {
            if !self.is_live() {
                return self.found();
            }
            self.core.work(&mut NoBrake::new());
        }
        Err(Fault::Unended)
    }

    // How the solve ended.
    fn found(&mut self) -> Result<Found, Fault>
        requires { phase_of self.old.core ≢ Phase.Live }
        ensures { IfOk result (IsTrueOf self.new.core.problem) }
    {
        self.core.is_kept();
        match self.core.step(&Call::Wait) {
            Reply::Unsat { failed, .. } => Ok(Found::Failed(failed)),
            Reply::Status {
                status: Status::Sat,
                ..
            } => self.model(),
            reply => Err(Fault::Unexpected(reply)),
        }
    }

    // The model of a solve that found one.
    fn model(&mut self) -> Result<Found, Fault>
        ensures { IfOk result (IsTrueOf self.new.core.problem) }
    {
        self.core.is_kept();
        match self.core.step(&Call::Model) {
            Reply::Model(model) => Ok(Found::Model(model)),
            reply => Err(Fault::Unexpected(reply)),
        }
    }
}
