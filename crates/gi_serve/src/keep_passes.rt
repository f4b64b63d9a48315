// A shelf that keeps its passes.
ghost use Rattle.std.specs.Prelude.{◌≡◌, [], Some};

use crate::Shelf;
use gi_room::Pass;
use std::alloc::Global;

/// A shelf that keeps its passes. It drops one only where there is no memory for it, and counts
/// that; the count stays at the last value of its type once it is there.
#[derive(Drop)]
pub struct KeepPasses {
    passes: Vec<Pass>,
    lost: u64,
}

impl KeepPasses {
    ghost use Rattle.gi_serve.specs.Shelves.{keep_state, kept_passes, lost_passes};

    /// A shelf with no pass, and none lost. It takes no memory yet.
    pub fn new(alloc: Global) -> KeepPasses
        ensures { keep_state result ≡ record { shelved = Some []; lost = 0 } }
    {
        KeepPasses {
            passes: Vec::new(alloc),
            lost: 0,
        }
    }

    /// The passes that were put there, in order.
    pub fn passes(&self) -> &[Pass]
        ensures { result.now ≡ kept_passes self.now }
    {
        self.passes.as_slice()
    }

    /// How many passes were dropped, because there was no memory for them.
    pub fn lost(&self) -> u64
        ensures { result ≡ lost_passes self.now }
    {
        self.lost
    }
}

impl Shelf for KeepPasses {
    ghost use Rattle.gi_serve.specs.Shelves.{keep_state};

    ghost state = { keep_state };

    fn put(&mut self, pass: Pass) {
        match self.passes.push(pass) {
            Ok(()) => {}
            Err(_) => self.lost = self.lost.saturating_add(1),
        }
    }
}
