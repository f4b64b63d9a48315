ghost use Rattle.std.specs.Prelude.{◌≡◌, ◌+◌, ◌≤◌, IfOk};
ghost use Rattle.gi_model.specs.Effects.{sliced};
ghost use Rattle.gi_model.specs.Views.{run_of, solve_of};

use gi_model::{Now, Run, Solve};
use std::alloc::{AllocError, Global};

/// What a slice with so many news leaves of its solve.
pub fn sliced(alloc: Global, run: Run, count: usize, now: &Now) -> Result<Solve, AllocError>
    requires within { run.spent + count ≤ run.budget }
    requires learns { now.now ≡ Now.Live → 1 ≤ count }
    ensures { IfOk result (λ solve. solve_of solve ≡ sliced (run_of run) count now.now) }
{
    match now {
        Now::Live => Ok(Solve::Running(run.go_on(count as u32))),
        Now::Ended(verdict) => Ok(Solve::Ended(run.serial, verdict.copy(alloc)?)),
    }
}
