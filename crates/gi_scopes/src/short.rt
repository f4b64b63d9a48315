ghost use Rattle.std.specs.Prelude.{◌≡◌, [], ◌∷◌, ◌++◌, OnOk, OnErr, IfOk};

use gi_lit::{Lit, Lits};
use smallvec::SmallVec;
use std::alloc::{AllocError, Global};
use std::marker::Model;

/// A list of literals that is mostly short, kept as their codes. Contracts see the codes.
#[derive(Drop)]
pub(crate) struct Short {
    codes: SmallVec<u32, 2>,
}

impl Model for Short {
    ghost use Rattle.std.specs.Prelude.{ℕ, List, All};
    ghost use Rattle.gi_lit.specs.Literals.{IsLiteral};

    ghost Value = { List ℕ };

    ghost view = { λ s. s.codes.items };

    ghost invariant = { λ s. All IsLiteral s.codes.items };
}

impl Short {
    /// The empty list.
    pub(crate) fn new(alloc: Global) -> Short
        ensures { result ≡ [] }
    {
        Short {
            codes: SmallVec::new(alloc),
        }
    }

    /// Puts a literal behind the last one. A refused push changes nothing.
    pub(crate) fn push(&mut self, l: Lit) -> Result<(), AllocError>
        ensures ok { OnOk result (self.new ≡ self.old ++ l ∷ []) }
        ensures err { OnErr result (self.new ≡ self.old) }
    {
        self.codes.push(l.code())?;
        Ok(())
    }

    /// The codes of the literals in order.
    pub(crate) fn codes(&self) -> &[u32]
        ensures { result.now ≡ self.now }
    {
        self.codes.as_slice()
    }

    /// The literals in order.
    pub(crate) fn copy(&self, alloc: Global) -> Result<Lits, AllocError>
        ensures { IfOk result (λ ls. ls ≡ self.now) }
    {
        let mut lits = Lits::new(alloc);
        for code in self.codes.as_slice() {
            match Lit::from_code(*code) {
                Some(l) => lits.push(l)?,
                None => unreachable!(),
            }
        }
        Ok(lits)
    }
}
