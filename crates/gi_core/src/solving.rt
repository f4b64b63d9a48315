//! The start of a solve, and the work on it.

ghost use Rattle.std.specs.Prelude.{◌≡◌, ◌≢◌, ◌+◌, ◌≤◌, ℕ, ◌*◌, min, None, IfOk, length};
ghost use Rattle.gi_model.specs.Limits.{most_news};
ghost use Rattle.gi_model.specs.Luby.{IsLuby};
ghost use Rattle.gi_model.specs.State.{all_assumed};
ghost use Rattle.gi_model.specs.History.{MayCome};
ghost use Rattle.gi_model.specs.Refusals.{refuses};
ghost use Rattle.gi_model.specs.declared.calls.Call.TheVariants as call;
ghost use Rattle.gi_core.specs.Ending.{verdict_of, Settles, IsNews};
ghost use Rattle.gi_core.specs.View.{state_of, IsMachine, Moves};

use crate::machine::Machine;
use crate::solver::is_lost;
use gi_cdcl::{Brake, Slice, Sliced};
use gi_lit::{Clauses, Lits};
use gi_model::lists::append;
use gi_model::{Cause, Life, MAX_NEWS, Now, Reply, Run, Solve, Verdict, is_live, luby};
use std::alloc::AllocError;
use std::mem;

/// What a slice of work answers, and the greatest mark that its brake told.
#[derive(Debug, Drop)]
pub struct Work {
    pub mark: u64,
    pub reply: Reply,
}

/// How many clauses the next slice may learn: 32 times the Luby number of its place among the
/// slices of its solve, at most 1,024, and at most what is left of the budget.
fn slice_limit(slices: u32, left: u32) -> u32
    requires { 1 ≤ left }
    ensures low { 1 ≤ result }
    ensures high { result ≤ most_news }
    ensures within { result ≤ left }
    ensures pace { (n : ℕ) × IsLuby (slices + 1) n × (result ≡ min (min (32 * n) most_news) left) }
{
    let pace = luby(slices);
    let wanted = if pace > 32 {
        MAX_NEWS
    } else {
        32 * pace as u32
    };
    wanted.min(left)
}

/// How a slice leaves its solve: with a verdict, or running. The solve has learnt so many clauses
/// by now.
fn verdict_of(end: Slice, mark: u64, spent: u32, budget: u32) -> Option<Verdict>
    ensures { result ≡ verdict_of end mark spent budget }
{
    match end {
        Slice::Braked => Some(Verdict::Unknown(Cause::Stopped(mark))),
        Slice::Learned if spent == budget => Some(Verdict::Unknown(Cause::Budget(budget))),
        Slice::Learned => None,
        Slice::Sat(values) => Some(Verdict::Sat(values)),
        Slice::Unsat(failing) => Some(Verdict::Unsat(failing)),
        Slice::NoMemory => None,
    }
}

impl Machine {
    /// The assumptions of the open scopes, then the pending ones.
    fn all_assumed(&self) -> Result<Lits, AllocError>
        ensures { IfOk result (λ ls. ls ≡ all_assumed (state_of self.now)) }
    {
        let mut assumed = Lits::new(self.alloc);
        self.scopes.push_assumed(&mut assumed)?;
        append(&mut assumed, self.pending.as_slice())?;
        Ok(assumed)
    }

    pub fn start(&mut self, budget: u32) -> Reply
        requires whole { IsMachine self.old }
        requires comes { MayCome (state_of self.old) (call.Solve budget) }
        requires free { refuses (state_of self.old) (call.Solve budget) ≡ None }
        ensures { Moves self.old (call.Solve budget) result self.new }
    {
        match self.all_assumed() {
            Ok(assumed) => {
                self.solver.trim();
                self.pending = Lits::new(self.alloc);
                self.serial += 1;
                let run = Run::new(self.serial, assumed, budget);
                self.solve = Solve::Running(run);
                Reply::Started(self.serial)
            }
            Err(_) => self.die(),
        }
    }

    pub fn work<B: Brake>(&mut self, brake: &mut B) -> Work
        requires whole { IsMachine self.old }
        requires new_brake { (B.top brake.old ≡ 0) × (B.asks brake.old ≡ 0) }
        ensures moves { Moves self.old (call.Work result.mark) result.reply self.new }
        ensures mark { result.mark ≡ B.top brake.new }
        ensures follows { B.follows brake.old brake.new }
        ensures asks { IsNews (B.asks brake.new) result.reply }
    {
        if !is_live(self) {
            return Work {
                mark: 0,
                reply: Reply::Idle,
            };
        }
        match mem::replace(&mut self.solve, Solve::Idle) {
            Solve::Running(run) => self.work_on(run, brake),
            _ => unreachable!(),
        }
    }

    /// A slice of work on the solve, which was taken out of the machine.
    fn work_on<B: Brake>(&mut self, run: Run, brake: &mut B) -> Work
        requires whole { IsMachine (record self.old { solve = Solve.Running run }) }
        requires alive { self.old.life ≡ Life.Alive }
        requires new_brake { (B.top brake.old ≡ 0) × (B.asks brake.old ≡ 0) }
        ensures moves { Moves (record self.old { solve = Solve.Running run })
            (call.Work result.mark) result.reply self.new }
        ensures mark { result.mark ≡ B.top brake.new }
        ensures follows { B.follows brake.old brake.new }
        ensures asks { IsNews (B.asks brake.new) result.reply }
    {
        let limit = slice_limit(run.slices, run.budget - run.spent);
        let Sliced { news, mark, end } = self
            .solver
            .slice(run.assumed.as_slice(), limit, run.serial, brake);
        if is_lost(&end) {
            return Work {
                mark,
                reply: self.die(),
            };
        }
        Work {
            mark,
            reply: self.settle(run, news, mark, end),
        }
    }

    /// What a slice leaves of its solve, and its answer.
    fn settle(&mut self, run: Run, news: Clauses, mark: u64, end: Slice) -> Reply
        requires budget { run.spent + length news ≤ run.budget }
        requires found { end ≢ Slice.NoMemory }
        requires some { end ≡ Slice.Learned → 1 ≤ length news }
        ensures { Settles self.old run news
            (verdict_of end mark (run.spent + length news) run.budget) result self.new }
    {
        let count = news.len() as u32;
        match verdict_of(end, mark, run.spent + count, run.budget) {
            None => {
                self.solve = Solve::Running(run.go_on(count));
                Reply::Worked {
                    news,
                    now: Now::Live,
                }
            }
            Some(verdict) => match verdict.copy(self.alloc) {
                Ok(copy) => {
                    self.solve = Solve::Ended(run.serial, copy);
                    Reply::Worked {
                        news,
                        now: Now::Ended(verdict),
                    }
                }
                Err(_) => self.die(),
            },
        }
    }
}
