use crate::machine::Plain;
use crate::scopes::lists;
use gi_lit::{Lit, Var};
use gi_model::{Facts, Life, Solve};

impl Facts for Plain {
    ghost state = { λ s. s };

    fn life(&self) -> Life {
        self.life
    }

    fn solve(&self) -> &Solve {
        &self.solve
    }

    fn serial(&self) -> u64 {
        self.serial
    }

    fn pending(&self) -> &[Lit] {
        self.pending.as_slice()
    }

    fn depth(&self) -> usize {
        self.scopes.len()
    }

    fn lists(&self, m: Lit) -> bool {
        lists(self.scopes.as_slice(), m)
    }

    fn known(&self) -> u64 {
        self.known.len() as u64
    }

    fn is_usable(&self, l: Lit) -> bool {
        self.store.is_usable(l)
    }

    fn is_active(&self, g: Var) -> bool {
        self.store.is_active(g)
    }

    fn lacks_guard(&self) -> bool {
        self.store.lacks_guard()
    }

    fn is_full(&self, clause: &[Lit], lits: u128) -> bool {
        self.store.is_full(clause, lits)
    }
}
