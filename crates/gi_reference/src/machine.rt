ghost use Rattle.std.specs.Prelude.{◌≡◌, ◌<◌, ◌≤◌, ◌==◌, ◌&&◌, nat_le, false, length, OnOk};
ghost use Rattle.gi_lit.specs.Problem.{grown, with_clause, with_group, with_guard};
ghost use Rattle.gi_model.specs.Limits.{most_solves};
ghost use Rattle.gi_lit.specs.Literals.{max_var};
ghost use Rattle.gi_model.specs.State.{opening, shut};
ghost use Rattle.gi_model.specs.Effects.{with_problem, assuming, untested, started, dropped, trimmed, pausing, resuming, stopping};

use crate::lists::without_var;
use crate::scopes::{Level, assumptions};
use crate::store::Store;
use gi_lit::{Clause, Guards, Lits, Var, top_variable};
use gi_model::lists::append;
use gi_model::{Life, MAX_UNTRIMMED, Run, Solve};
use std::alloc::{AllocError, Global};
use std::marker::Model;
use std::mem;

/// The machine over plain lists.
#[derive(Drop)]
pub struct Plain {
    pub(crate) alloc: Global,
    pub(crate) store: Store,
    pub(crate) known: Vec<Clause>,
    pub(crate) pending: Lits,
    pub(crate) scopes: Vec<Level>,
    pub(crate) solve: Solve,
    pub(crate) serial: u64,
    pub(crate) life: Life,
}

impl Model for Plain {
    ghost use Rattle.gi_model.specs.State.{State};
    ghost use Rattle.gi_reference.specs.View.{state_of};

    ghost Value = { State };

    ghost view = { λ p. state_of p.store p.known.items p.pending p.scopes.items p.solve p.serial
        p.life };
}

impl Plain {
    /// A new machine.
    pub fn new(alloc: Global) -> Plain
        ensures { result ≡ opening }
    {
        Plain {
            alloc,
            store: Store::new(alloc),
            known: Vec::new(alloc),
            pending: Lits::new(alloc),
            scopes: Vec::new(alloc),
            solve: Solve::Idle,
            serial: 0,
            life: Life::Alive,
        }
    }

    /// At least so many variables.
    pub(crate) fn grow(&mut self, n: u32)
        requires { n ≤ max_var }
        ensures { self.new ≡ with_problem (grown n self.old.problem) self.old }
    {
        self.store.grow(n);
        self.solve.forget();
    }

    /// A plain clause more.
    pub(crate) fn put_clause(&mut self, c: &Clause) -> Result<(), AllocError>
        ensures { OnOk result (self.new ≡ with_problem (with_clause c.now self.old.problem)
            self.old) }
    {
        self.store.add(c)?;
        self.solve.forget();
        Ok(())
    }

    /// A clause more under guards.
    pub(crate) fn put_group(&mut self, guards: &Guards, c: &Clause) -> Result<(), AllocError>
        ensures { OnOk result (self.new ≡ with_problem
            (with_group guards.now c.now self.old.problem) self.old) }
    {
        self.store.under(guards, c)?;
        self.solve.forget();
        Ok(())
    }

    /// Drops a guard, with the groups that name it and what was learnt about it.
    pub(crate) fn free(&mut self, g: Var) -> Result<(), AllocError>
        ensures { OnOk result (self.new ≡ dropped g self.old) }
    {
        self.store.drop_guard(g)?;
        let known = mem::replace(&mut self.known, Vec::new(self.alloc));
        self.known = without_var(self.alloc, known, g)?;
        self.solve.forget();
        Ok(())
    }

    /// Assumptions more.
    pub(crate) fn take_on(&mut self, lits: &Lits) -> Result<(), AllocError>
        ensures { OnOk result (self.new ≡ assuming lits.now self.old) }
    {
        append(&mut self.pending, lits.as_slice())?;
        self.store.grow(top_variable(lits.as_slice()));
        self.solve.forget();
        Ok(())
    }

    /// Closes the scope that was opened last.
    pub(crate) fn close(&mut self)
        ensures { self.new ≡ untested self.old }
    {
        let _ = self.scopes.pop();
        self.solve.forget();
    }

    /// With more than 20,000 learnt clauses the oldest half goes.
    fn trim(&mut self) -> Result<(), AllocError>
        ensures { OnOk result (self.new ≡ record self.old { known = trimmed self.old.known }) }
    {
        if self.known.len() as u64 > MAX_UNTRIMMED {
            let half = self.known.len() / 2;
            self.known = self.known.split_off(half)?;
        }
        Ok(())
    }

    /// Starts a solve.
    pub(crate) fn start(&mut self, budget: u32) -> Result<(), AllocError>
        requires { self.old.serial < most_solves }
        ensures { OnOk result (self.new ≡ started budget self.old) }
    {
        let mut assumed = assumptions(self.alloc, self.scopes.as_slice())?;
        append(&mut assumed, self.pending.as_slice())?;
        self.trim()?;
        self.pending = Lits::new(self.alloc);
        self.serial += 1;
        self.solve = Solve::Running(Run::new(self.serial, assumed, budget));
        Ok(())
    }

    /// Hands out a guard.
    pub(crate) fn make_guard(&mut self) -> Result<(), AllocError>
        requires { ((length self.old.problem.freed == 0) && nat_le max_var self.old.problem.vars)
            ≡ false }
        ensures { OnOk result (self.new ≡ with_problem (with_guard self.old.problem) self.old) }
    {
        self.store.new_guard()?;
        self.solve.forget();
        Ok(())
    }

    /// Lets a running solve rest.
    pub(crate) fn rest(&mut self)
        ensures { self.new ≡ record self.old { solve = pausing self.old.solve } }
    {
        self.solve.pause();
    }

    /// Lets a paused solve go on.
    pub(crate) fn go_on(&mut self)
        ensures { self.new ≡ record self.old { solve = resuming self.old.solve } }
    {
        self.solve.resume();
    }

    /// Ends a running or paused solve.
    pub(crate) fn end(&mut self)
        ensures { self.new ≡ record self.old { solve = stopping self.old.solve } }
    {
        self.solve.stop();
    }

    /// Shuts the machine.
    pub(crate) fn lock(&mut self)
        ensures { self.new ≡ record self.old { life = shut } }
    {
        self.life = Life::Shut;
    }
}
