ghost use Rattle.gi_core.specs.View.{state_of};

use crate::machine::Machine;
use gi_lit::{Lit, Var};
use gi_model::{Facts, Life, Solve};

impl Facts for Machine {
    ghost state = { λ m. state_of m };

    fn life(&self) -> Life {
        self.life
    }

    fn solve(&self) -> &Solve {
        &self.solve
    }

    fn serial(&self) -> u64 {
        self.serial
    }

    fn pending(&self) -> &[Lit] {
        self.pending.as_slice()
    }

    fn depth(&self) -> usize {
        self.scopes.depth() as usize
    }

    fn lists(&self, m: Lit) -> bool {
        self.scopes.lists(m)
    }

    fn known(&self) -> u64 {
        self.solver.known()
    }

    fn is_usable(&self, l: Lit) -> bool {
        self.solver.is_usable(l)
    }

    fn is_active(&self, g: Var) -> bool {
        self.solver.is_active(g)
    }

    fn lacks_guard(&self) -> bool {
        self.solver.lacks_guard()
    }

    fn is_full(&self, clause: &[Lit], lits: u128) -> bool {
        self.solver.is_full(clause, lits)
    }
}
