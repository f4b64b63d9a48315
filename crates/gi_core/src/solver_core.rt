ghost use Rattle.std.specs.Prelude.{◌≡◌, ◌≢◌, true};
ghost use Rattle.gi_model.specs.State.{opening, phase_of};
ghost use Rattle.gi_model.specs.Fits.{fits};
ghost use Rattle.gi_model.specs.History.{Step};
ghost use Rattle.gi_model.specs.Kept.{IsKept};
ghost use Rattle.gi_core.specs.Ending.{IsNews};

use crate::machine::Machine;
use crate::solving::Work;
use gi_cdcl::Brake;
use gi_model::{Call, Phase, Reply, calls_may_come, refusal_of};
use std::alloc::Global;
use std::marker::Model;

/// The whole machine. Contracts see its state, of which every legal history keeps the invariant.
#[derive(Drop)]
pub struct Core {
    machine: Machine,
}

impl Model for Core {
    ghost use Rattle.gi_model.specs.State.{State};
    ghost use Rattle.gi_core.specs.View.{state_of, IsMachine};

    ghost Value = { State };

    ghost view = { λ c. state_of c.machine };

    ghost invariant = { λ c. IsMachine c.machine };
}

impl Core {
    /// A new machine.
    pub fn new(alloc: Global) -> Core
        ensures { result ≡ opening }
    {
        Core {
            machine: Machine::new(alloc),
        }
    }

    /// What callers see at a glance.
    pub fn phase(&self) -> Phase
        ensures { result ≡ phase_of self.now }
    {
        self.machine.phase()
    }

    /// That the state keeps the invariant of all legal histories: what was learnt is implied by the
    /// problem, what scopes list are consequences, no limit is passed, and the rest of its record.
    pub fn is_kept(&self)
        ensures { IsKept self.now }
    {
        let _ = &self.machine;
    }

    /// Answers a call that fits; a wait only where no solve is running. The answer is the refusal
    /// that the table names, which changes nothing, or else an answer to the call, or want of
    /// memory, which leaves a new machine that is dead. A file is loaded whole, or nothing of it
    /// is; it is read first, so want of memory may come in the place of a refusal of what it says.
    pub fn step(&mut self, call: &Call) -> Reply
        requires fits { fits call.now ≡ true }
        requires wait { call.now ≡ Call.Wait → phase_of self.old ≢ Phase.Live }
        ensures { Step self.old call.now result self.new }
    {
        calls_may_come();
        match refusal_of(&self.machine, call) {
            Some(refusal) => Reply::Refused(refusal),
            None => self.machine.accept(call),
        }
    }

    /// A slice of work on the running solve, with a brake that wasn't asked yet; `Idle` exactly
    /// where none is running. The slice learns no more clauses than 32 times the Luby number of its
    /// place in the solve, than 1,024, and than what is left of the budget.
    pub fn work<B: Brake>(&mut self, brake: &mut B) -> Work
        requires { (B.top brake.old ≡ 0) × (B.asks brake.old ≡ 0) }
        ensures step { Step self.old (Call.Work result.mark) result.reply self.new }
        ensures mark { result.mark ≡ B.top brake.new }
        ensures follows { B.follows brake.old brake.new }
        ensures asks { IsNews (B.asks brake.new) result.reply }
    {
        self.machine.work(brake)
    }
}
