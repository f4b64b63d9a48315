//! Calls that edit the problem, and tests.

ghost use Rattle.std.specs.Prelude.{◌≡◌, ◌++◌, None, OnOk, true};
ghost use Rattle.gi_lit.specs.Problem.{grown, top};
ghost use Rattle.gi_dimacs.specs.Texts.{IsGood};
ghost use Rattle.gi_model.specs.Early.{early};
ghost use Rattle.gi_model.specs.Fits.{fits};
ghost use Rattle.gi_model.specs.History.{MayCome};
ghost use Rattle.gi_model.specs.Refusals.{refuses};
ghost use Rattle.gi_model.specs.declared.calls.Call.TheVariants as call;
ghost use Rattle.gi_core.specs.Loads.{TakesFile};
ghost use Rattle.gi_core.specs.View.{state_of, IsMachine, Moves};

use crate::loading::{read_cnf, refusal_of_fault};
use crate::machine::Machine;
use crate::scopes::tested;
use crate::solver::Solver;
use gi_dimacs::{Cnf, CnfRead, good_values};
use gi_lit::{Guards, Lit, Lits, Var, top_variable};
use gi_model::lists::append;
use gi_model::{Refusal, Reply};
use gi_scopes::Tested;
use gi_scopes::laws::more_clauses_keep_reasons;
use std::alloc::AllocError;
use std::marker::Brand;
use std::mem;
use std::sync::ledger::Blank;

/// Puts assumptions behind the pending ones; their variables are there from then on.
fn take_on(pending: &mut Lits, solver: &mut Solver, lits: &[Lit]) -> Result<(), AllocError>
    ensures pending { OnOk result (pending.new ≡ pending.old ++ lits.now) }
    ensures solver { OnOk result
        (solver.new ≡ record solver.old { problem = grown (top lits.now) solver.old.problem }) }
{
    append(pending, lits)?;
    solver.grow(top_variable(lits))
}

impl Machine {
    pub fn vars(&mut self, n: u32) -> Reply
        requires { refuses (state_of self.old) (call.Vars n) ≡ None }
        ensures { Moves self.old (call.Vars n) result self.new }
    {
        more_clauses_keep_reasons();
        match self.solver.grow(n) {
            Ok(()) => {
                self.solve.forget();
                Reply::Vars(self.solver.vars())
            }
            Err(_) => self.die(),
        }
    }

    pub fn add(&mut self, c: &Lits) -> Reply
        requires { refuses (state_of self.old) (call.Add c.now) ≡ None }
        ensures { Moves self.old (call.Add c.now) result self.new }
    {
        more_clauses_keep_reasons();
        match self.solver.add(c.as_slice()) {
            Ok(()) => {
                self.scopes.edited();
                self.solve.forget();
                Reply::Done
            }
            Err(_) => self.die(),
        }
    }

    pub fn assume(&mut self, lits: &Lits) -> Reply
        requires { refuses (state_of self.old) (call.Assume lits.now) ≡ None }
        ensures { Moves self.old (call.Assume lits.now) result self.new }
    {
        more_clauses_keep_reasons();
        match take_on(&mut self.pending, &mut self.solver, lits.as_slice()) {
            Ok(()) => {
                self.solve.forget();
                Reply::Done
            }
            Err(_) => self.die(),
        }
    }

    pub fn new_guard(&mut self) -> Reply
        requires whole { IsMachine self.old }
        requires free { refuses (state_of self.old) call.NewGuard ≡ None }
        ensures { Moves self.old call.NewGuard result self.new }
    {
        more_clauses_keep_reasons();
        match self.solver.new_guard() {
            Ok(g) => {
                self.solve.forget();
                Reply::Guard(g)
            }
            Err(_) => self.die(),
        }
    }

    pub fn under(&mut self, guards: &Guards, c: &Lits) -> Reply
        requires comes { MayCome (state_of self.old) (call.Under guards.now c.now) }
        requires free { refuses (state_of self.old) (call.Under guards.now c.now) ≡ None }
        ensures { Moves self.old (call.Under guards.now c.now) result self.new }
    {
        more_clauses_keep_reasons();
        match self.solver.add_under(guards.as_slice(), c.as_slice()) {
            Ok(()) => {
                self.scopes.edited();
                self.solve.forget();
                Reply::Done
            }
            Err(_) => self.die(),
        }
    }

    pub fn drop_guard(&mut self, g: Var) -> Reply
        requires whole { IsMachine self.old }
        requires free { refuses (state_of self.old) (call.DropGuard g) ≡ None }
        ensures { Moves self.old (call.DropGuard g) result self.new }
    {
        self.solver.remove_guard(g);
        self.scopes.edited();
        self.solve.forget();
        Reply::Done
    }
    /// Answers a load that isn't refused before its payload is read: refuses it by its file or by
    /// the first fault, or takes the file.
    pub fn load(&mut self, bytes: &[u8]) -> Reply
        requires whole { IsMachine self.old }
        requires fits { fits (call.LoadCnf bytes.now) ≡ true }
        requires free { early (state_of self.old) (call.LoadCnf bytes.now) ≡ None }
        ensures { Moves self.old (call.LoadCnf bytes.now) result self.new }
    {
        good_values();
        match read_cnf(self.alloc, bytes) {
            CnfRead::Value(file) => self.take_file(&file),
            CnfRead::Fault(fault) => Reply::Refused(refusal_of_fault(fault)),
            CnfRead::NoMemory => self.die(),
        }
    }

    /// Takes a file's variables and clauses, all of them or none.
    fn take_file(&mut self, file: &Cnf) -> Reply
        requires whole { IsMachine self.old }
        requires good { IsGood file.now }
        ensures { TakesFile self.old file.now result self.new }
    {
        more_clauses_keep_reasons();
        let clauses = file.clauses.as_slice();
        if self.solver.some_clause_unusable(clauses) {
            return Reply::Refused(Refusal::Lit);
        }
        if self.solver.lacks_room(clauses) {
            return Reply::Refused(Refusal::Limit);
        }
        match self.solver.load(file.vars, clauses) {
            Ok(()) => {
                self.scopes.edited();
                self.solve.forget();
                Reply::LoadedCnf {
                    vars: file.vars,
                    clauses: clauses.len() as u32,
                }
            }
            Err(_) => self.die(),
        }
    }

    pub fn test(&mut self) -> Reply
        requires whole { IsMachine self.old }
        requires free { refuses (state_of self.old) call.Test ≡ None }
        ensures { Moves self.old call.Test result self.new }
    {
        let pending = mem::replace(&mut self.pending, Lits::new(self.alloc));
        match tested::<Brand>(
            &mut self.scopes,
            self.solver.store(),
            pending,
            Blank::new(1),
        ) {
            Tested::Implied(lits) => {
                self.solve.forget();
                Reply::Implied(lits)
            }
            Tested::Failed(failing) => {
                self.solve.forget();
                Reply::Failed(failing)
            }
            Tested::NoMemory => self.die(),
        }
    }

    pub fn untest(&mut self) -> Reply
        requires { refuses (state_of self.old) call.Untest ≡ None }
        ensures { Moves self.old call.Untest result self.new }
    {
        self.scopes.untest();
        self.solve.forget();
        Reply::Done
    }
}
