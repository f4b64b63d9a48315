// The steps of files, by form.
ghost use Rattle.std.specs.Prelude.{◌≤◌, ℕ, List, refl};
ghost use Rattle.gi_dimacs.specs.Relation.{IsFile};
ghost use Rattle.gi_net.specs.Leads.{Leads};
ghost use Rattle.gi_batch.specs.declared.answer.Answer.{Answer};
ghost use Rattle.gi_batch.specs.Steps.{BatchStep, HasSteps, cnf_steps, icnf_steps};
ghost use Rattle.gi_batch.specs.Done.{Goes};

use crate::answer::{Answer, Stop};
use crate::steps::{solve_cnf, solve_icnf};
use gi_dimacs::{Cnf, Icnf};
use gi_files::FormValue;
use gi_net::Caller;
use gi_outside::Link;

/// What a file says, with the steps that are asked for it.
pub(crate) trait FileSteps: FormValue {
    /// The steps.
    ghost steps: { Self → List BatchStep };

    /// Does them. The answer is that of the last solve, or unknown where there is none.
    fn solve<C: Caller, L: Link>(
        self,
        budget: u32,
        caller: &mut C,
        user: &mut L,
    ) -> Result<Answer, Stop>
        requires { 1 ≤ budget }
        ensures goes { Goes result budget (steps self) (L.state user.old) (L.state user.new)
            (C.standing caller.old) (C.standing caller.new) Answer.Unknown }
        ensures led { Leads C.kept caller.old caller.new };

    /// They are those of bytes that say the value.
    ghost has_steps: { (v : Self) (bytes : List ℕ) → IsFile (Self.file v) bytes
        → HasSteps Self.form bytes (steps v) };
}

impl FileSteps for Cnf {
    ghost steps = { cnf_steps };

    ghost has_steps = { λ v bytes is. (v, is, refl) };

    fn solve<C: Caller, L: Link>(
        self,
        budget: u32,
        caller: &mut C,
        user: &mut L,
    ) -> Result<Answer, Stop> {
        solve_cnf(self, budget, caller, user)
    }
}

impl FileSteps for Icnf {
    ghost steps = { icnf_steps };

    ghost has_steps = { λ v bytes is. (v, is, refl) };

    fn solve<C: Caller, L: Link>(
        self,
        budget: u32,
        caller: &mut C,
        user: &mut L,
    ) -> Result<Answer, Stop> {
        solve_icnf(&self, budget, caller, user)
    }
}
