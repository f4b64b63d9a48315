ghost use Rattle.std.specs.Prelude.{◌≡◌, ◌+◌, ◌≤◌, false, length, Some, None, OnOk, OnErr, IfOk, IsTrue, ◌↔◌, ◌⊎◌, if◌then◌else◌};
ghost use Rattle.gi_model.specs.State.{Run, dead_state, live_run};
ghost use Rattle.gi_model.specs.Refusals.{refuses, is_work};
ghost use Rattle.gi_model.specs.Effects.{opened, tested, worked, accepted, after};
ghost use Rattle.gi_model.specs.History.{Allows};
ghost use Rattle.gi_reference.specs.Found.{found_of};

use crate::lists::append_copies;
use crate::machine::Plain;
use crate::scopes::Level;
use crate::slices::sliced;
use gi_lit::{Clauses, Lits};
use gi_model::{Call, Life, Now, Reply, Solve};
use std::alloc::AllocError;
use std::mem;

impl Plain {
    /// A new machine, but dead.
    fn die(&mut self)
        ensures { self.new ≡ dead_state }
    {
        *self = Plain::new(self.alloc);
        self.life = Life::Dead;
    }

    /// Opens a scope with the pending assumptions.
    fn open(&mut self, failed: bool, found: &Lits) -> Result<(), AllocError>
        ensures { OnOk result (self.new ≡ opened (found_of failed found.now) self.old) }
    {
        let found = found.copy()?;
        let assumed = mem::replace(&mut self.pending, Lits::new(self.alloc));
        self.scopes.push(Level::new(assumed, failed, found))?;
        self.solve.forget();
        Ok(())
    }

    /// What a test's answer changes.
    fn follow_test(&mut self, reply: &Reply) -> Result<(), AllocError>
        ensures { OnOk result (self.new ≡ tested reply.now self.old) }
    {
        match reply {
            Reply::Implied(lits) => self.open(false, lits),
            Reply::Failed(failed) => self.open(true, failed),
            _ => Ok(()),
        }
    }

    /// Learns the news, and leaves the solve so, if it runs.
    fn learn(&mut self, news: &Clauses, now: &Now) -> Result<(), AllocError>
        requires within { (r : Run) → live_run self.old ≡ Some r
            → r.spent + length news.now ≤ r.budget }
        requires learns { (r : Run) → live_run self.old ≡ Some r → now.now ≡ Now.Live
            → 1 ≤ length news.now }
        ensures { OnOk result (self.new ≡ worked (live_run self.old) (Reply.Worked news.now now.now)
            self.old) }
    {
        if !self.is_alive() {
            return Ok(());
        }
        let solve = mem::replace(&mut self.solve, Solve::Idle);
        match solve {
            Solve::Running(run) => {
                append_copies(&mut self.known, news.as_slice())?;
                self.solve = sliced(self.alloc, run, news.len(), now)?;
                Ok(())
            }
            Solve::Paused(run) => {
                self.solve = Solve::Paused(run);
                Ok(())
            }
            Solve::Ended(serial, verdict) => {
                self.solve = Solve::Ended(serial, verdict);
                Ok(())
            }
            Solve::Idle => Ok(()),
        }
    }

    /// What an answer to work changes.
    fn follow_work(&mut self, mark: u64, reply: &Reply) -> Result<(), AllocError>
        requires { Allows self.old (Call.Work mark) reply.now }
        ensures { OnOk result (self.new ≡ worked (live_run self.old) reply.now self.old) }
    {
        match reply {
            Reply::Worked { news, now } => self.learn(news, now),
            _ => Ok(()),
        }
    }

    /// What a call changes that isn't refused, and that memory isn't wanting for.
    fn accept(&mut self, call: &Call, reply: &Reply) -> Result<(), AllocError>
        requires allowed { Allows self.old call.now reply.now }
        requires free { is_work call.now ≡ false → refuses self.old call.now ≡ None }
        ensures { OnOk result (self.new ≡ accepted self.old call.now reply.now) }
    {
        match call {
            Call::Vars(n) => {
                self.grow(*n);
                Ok(())
            }
            Call::Add(c) => self.put_clause(c),
            Call::NewGuard => self.make_guard(),
            Call::Under(guards, c) => self.put_group(guards, c),
            Call::DropGuard(g) => self.free(*g),
            Call::Assume(lits) => self.take_on(lits),
            Call::Test => self.follow_test(reply),
            Call::Untest => {
                self.close();
                Ok(())
            }
            Call::Solve(budget) => self.start(*budget),
            Call::Pause => {
                self.rest();
                Ok(())
            }
            Call::Resume => {
                self.go_on();
                Ok(())
            }
            Call::Stop => {
                self.end();
                Ok(())
            }
            Call::Shut => {
                self.lock();
                Ok(())
            }
            Call::Work(mark) => self.follow_work(*mark, reply),
            Call::Reasons(_) => Ok(()),
            Call::Poll => Ok(()),
            Call::Wait => Ok(()),
            Call::Model => Ok(()),
            Call::Known => Ok(()),
            Call::KnownClause(_) => Ok(()),
            Call::LoadCnf(bytes) => self.load(bytes),
            Call::Bye => Ok(()),
        }
    }

    /// Makes the state the one after an entry that it allows. Where memory is wanting the machine
    /// is dead.
    pub fn follow(&mut self, call: &Call, reply: &Reply) -> Result<(), AllocError>
        requires { Allows self.old call.now reply.now }
        ensures ok { OnOk result (self.new ≡ after self.old call.now reply.now) }
        ensures err { OnErr result (self.new ≡ dead_state) }
    {
        match self.enter(call, reply) {
            Ok(()) => Ok(()),
            Err(error) => {
                self.die();
                Err(error)
            }
        }
    }

    fn enter(&mut self, call: &Call, reply: &Reply) -> Result<(), AllocError>
        requires { Allows self.old call.now reply.now }
        ensures { OnOk result (self.new ≡ after self.old call.now reply.now) }
    {
        match reply {
            Reply::Refused(_) => Ok(()),
            Reply::NoMemory => {
                self.die();
                Ok(())
            }
            _ => self.accept(call, reply),
        }
    }

    /// Follows the entry where it is allowed, and says whether it is; else nothing changes. Where
    /// memory is wanting, nothing has changed or the machine is dead.
    pub fn step(&mut self, call: &Call, reply: &Reply) -> Result<bool, AllocError>
        ensures allowed { IfOk result (λ b. IsTrue b ↔ Allows self.old call.now reply.now) }
        ensures state { IfOk result
            (λ b. self.new ≡ (if b then after self.old call.now reply.now else self.old)) }
        ensures err { OnErr result ((self.new ≡ self.old) ⊎ (self.new ≡ dead_state)) }
    {
        let allowed = self.allows(call, reply)?;
        if !allowed {
            return Ok(false);
        }
        self.follow(call, reply)?;
        Ok(true)
    }
}
