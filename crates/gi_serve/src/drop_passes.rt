// A shelf that keeps nothing.
ghost use Rattle.std.specs.Prelude.{◌≡◌, None};

use crate::Shelf;
use gi_room::Pass;

/// A shelf that drops each pass. It tells none, and counts none as lost.
#[derive(Drop)]
pub struct DropPasses;

impl DropPasses {
    ghost use Rattle.gi_serve.specs.Shelves.{drop_state};

    /// A shelf that keeps nothing.
    pub fn new() -> DropPasses
        ensures { drop_state result ≡ record { shelved = None; lost = 0 } }
    {
        DropPasses
    }
}

impl Shelf for DropPasses {
    ghost use Rattle.gi_serve.specs.Shelves.{drop_state};

    ghost state = { drop_state };

    fn put(&mut self, pass: Pass) {
        drop(pass);
    }
}
