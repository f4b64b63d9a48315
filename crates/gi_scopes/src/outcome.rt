ghost use Rattle.std.specs.Prelude.{◌≡◌, [], ◌∷◌, ◌++◌, OnOk};

use crate::kept::Kept;
use crate::short::Short;
use gi_lit::{Lit, Lits};
use std::alloc::{AllocError, Global};

/// Literals that are implied, and beside each its reasons.
#[derive(Drop)]
pub(crate) struct Implied {
    pub(crate) lits: Lits,
    pub(crate) reasons: Vec<Short>,
}

/// What a test comes to.
#[derive(Drop)]
pub(crate) enum Outcome {
    /// What is implied, and the trail that shows it.
    Listed(Implied, Kept),
    /// Some of the assumptions, which fail.
    Failing(Lits),
}

impl Implied {
    /// With nothing in it.
    pub(crate) fn new(alloc: Global) -> Implied
        ensures lits { result.lits ≡ [] }
        ensures reasons { result.reasons.items ≡ [] }
    {
        Implied {
            lits: Lits::new(alloc),
            reasons: Vec::new(alloc),
        }
    }

    /// One literal more, with its reasons.
    pub(crate) fn push(&mut self, l: Lit, reasons: Short) -> Result<(), AllocError>
        ensures lits { OnOk result (self.new.lits ≡ self.old.lits ++ l ∷ []) }
        ensures reasons { OnOk result
            (self.new.reasons.items ≡ self.old.reasons.items ++ reasons ∷ []) }
    {
        self.lits.push(l)?;
        self.reasons.push(reasons)?;
        Ok(())
    }
}
