ghost use Rattle.std.specs.Prelude.{◌≡◌, None, true};
ghost use Rattle.gi_model.specs.State.{opening, dead_state, phase_of};
ghost use Rattle.gi_model.specs.Early.{early};
ghost use Rattle.gi_model.specs.Fits.{fits};
ghost use Rattle.gi_model.specs.History.{MayCome};
ghost use Rattle.gi_model.specs.Refusals.{refuses};
ghost use Rattle.gi_model.specs.Views.{life_of};
ghost use Rattle.gi_model.specs.declared.calls.Call.TheVariants as call;
ghost use Rattle.gi_core.specs.View.{state_of, IsBlank, IsMachine, Moves};

use crate::asking::{known_clause, true_literals};
use crate::solver::Solver;
use gi_lit::{Lit, Lits};
use gi_model::{Call, Life, Phase, Reply, Solve};
use gi_scopes::{Reasoned, Scopes};
use std::alloc::Global;

/// The parts of a machine.
#[derive(Drop)]
pub struct Machine {
    pub alloc: Global,
    pub solver: Solver,
    pub scopes: Scopes,
    pub pending: Lits,
    pub solve: Solve,
    pub serial: u64,
    pub life: Life,
}

impl Machine {
    /// A new machine, in this state of life.
    fn made(alloc: Global, life: Life) -> Machine
        ensures state { state_of result ≡ record opening { life = life_of life } }
        ensures blank { IsBlank result.scopes }
    {
        Machine {
            alloc,
            solver: Solver::new(alloc),
            scopes: Scopes::new(alloc),
            pending: Lits::new(alloc),
            solve: Solve::Idle,
            serial: 0,
            life,
        }
    }

    /// A new machine.
    pub fn new(alloc: Global) -> Machine
        ensures state { state_of result ≡ opening }
        ensures blank { IsBlank result.scopes }
    {
        Machine::made(alloc, Life::Alive)
    }

    /// What is left once memory was wanting: a new machine, but dead.
    pub fn die(&mut self) -> Reply
        ensures value { result ≡ Reply.NoMemory }
        ensures state { state_of self.new ≡ dead_state }
        ensures blank { IsBlank self.new.scopes }
    {
        *self = Machine::made(self.alloc, Life::Dead);
        Reply::NoMemory
    }

    /// What callers see at a glance.
    pub fn phase(&self) -> Phase
        ensures { result ≡ phase_of (state_of self.now) }
    {
        match self.life {
            Life::Shut => Phase::Shut,
            Life::Dead => Phase::Dead,
            Life::Alive => match &self.solve {
                Solve::Idle => Phase::Idle,
                Solve::Running(_) => Phase::Live,
                Solve::Paused(_) => Phase::Paused,
                Solve::Ended(_, _) => Phase::Ended,
            },
        }
    }
    /// Answers a call that isn't refused before its payload is read.
    pub fn accept(&mut self, call: &Call) -> Reply
        requires whole { IsMachine self.old }
        requires fits { fits call.now ≡ true }
        requires comes { MayCome (state_of self.old) call.now }
        requires free { early (state_of self.old) call.now ≡ None }
        ensures { Moves self.old call.now result self.new }
    {
        match call {
            Call::Vars(n) => self.vars(*n),
            Call::Add(c) => self.add(c),
            Call::NewGuard => self.new_guard(),
            Call::Under(guards, c) => self.under(guards, c),
            Call::DropGuard(g) => self.drop_guard(*g),
            Call::Assume(lits) => self.assume(lits),
            Call::Test => self.test(),
            Call::Untest => self.untest(),
            Call::Reasons(m) => self.reasons(*m),
            Call::Solve(budget) => self.start(*budget),
            Call::Pause => self.pause(),
            Call::Resume => self.resume(),
            Call::Stop => self.stop(),
            Call::Poll => self.poll(),
            Call::Wait => self.wait(),
            Call::Model => self.model(),
            Call::Known => self.known(),
            Call::KnownClause(i) => self.clause(*i),
            Call::LoadCnf(bytes) => self.load(bytes.as_slice()),
            Call::Bye => self.bye(),
            Call::Shut => self.shut(),
            Call::Work(_) => unreachable!(),
        }
    }

    pub fn reasons(&mut self, m: Lit) -> Reply
        requires whole { IsMachine self.old }
        requires free { refuses (state_of self.old) (call.Reasons m) ≡ None }
        ensures { Moves self.old (call.Reasons m) result self.new }
    {
        match self.scopes.reasons(self.alloc, m) {
            Reasoned::Reasons(rs) => Reply::Reasons(rs),
            Reasoned::NotImplied => unreachable!(),
            Reasoned::NoMemory => self.die(),
        }
    }

    pub fn pause(&mut self) -> Reply
        requires { refuses (state_of self.old) call.Pause ≡ None }
        ensures { Moves self.old call.Pause result self.new }
    {
        self.solve.pause();
        self.solve.status()
    }

    pub fn resume(&mut self) -> Reply
        requires { refuses (state_of self.old) call.Resume ≡ None }
        ensures { Moves self.old call.Resume result self.new }
    {
        self.solve.resume();
        self.solve.status()
    }

    pub fn stop(&mut self) -> Reply
        requires { refuses (state_of self.old) call.Stop ≡ None }
        ensures { Moves self.old call.Stop result self.new }
    {
        self.solve.stop();
        self.solve.status()
    }

    pub fn poll(&mut self) -> Reply
        requires { refuses (state_of self.old) call.Poll ≡ None }
        ensures { Moves self.old call.Poll result self.new }
    {
        self.solve.status()
    }

    pub fn wait(&mut self) -> Reply
        requires comes { MayCome (state_of self.old) call.Wait }
        requires free { refuses (state_of self.old) call.Wait ≡ None }
        ensures { Moves self.old call.Wait result self.new }
    {
        match self.solve.wait() {
            Ok(reply) => reply,
            Err(_) => self.die(),
        }
    }

    pub fn model(&mut self) -> Reply
        requires whole { IsMachine self.old }
        requires free { refuses (state_of self.old) call.Model ≡ None }
        ensures { Moves self.old call.Model result self.new }
    {
        match self.solve.model() {
            Some(values) => match true_literals(self.alloc, &self.solver, values) {
                Ok(lits) => Reply::Model(lits),
                Err(_) => self.die(),
            },
            None => unreachable!(),
        }
    }

    pub fn known(&mut self) -> Reply
        requires { refuses (state_of self.old) call.Known ≡ None }
        ensures { Moves self.old call.Known result self.new }
    {
        Reply::Known(self.solver.known())
    }

    pub fn clause(&mut self, i: u32) -> Reply
        requires { refuses (state_of self.old) (call.KnownClause i) ≡ None }
        ensures { Moves self.old (call.KnownClause i) result self.new }
    {
        match known_clause(self.alloc, &self.solver, i) {
            Ok(clause) => Reply::Clause(clause),
            Err(_) => self.die(),
        }
    }

    pub fn bye(&mut self) -> Reply
        requires { refuses (state_of self.old) call.Bye ≡ None }
        ensures { Moves self.old call.Bye result self.new }
    {
        let _ = &self.life;
        Reply::Bye
    }

    pub fn shut(&mut self) -> Reply
        requires { refuses (state_of self.old) call.Shut ≡ None }
        ensures { Moves self.old call.Shut result self.new }
    {
        self.life = Life::Shut;
        Reply::Done
    }
}
