ghost use Rattle.std.specs.Prelude.{◌≡◌};

use crate::brake::Brake;

/// A brake that nobody pulls: its mark is always 0.
#[derive(Drop)]
pub struct NoBrake {
    // How often it was asked.
    asks: u32,
}

impl NoBrake {
    ghost use Rattle.gi_cdcl.specs.Braking.{asks_of};

    /// One that wasn't asked yet.
    pub fn new() -> NoBrake
        ensures { asks_of result ≡ 0 }
    {
        NoBrake { asks: 0 }
    }
}

impl Brake for NoBrake {
    ghost use Rattle.gi_cdcl.specs.Braking.{asks_of};

    ghost top = { λ b. 0 };

    ghost asks = { asks_of };

    ghost follows = { λ old new. Unit {0} };

    ghost reflexive = { λ b. tt };

    ghost transitive = { λ a b c f g. tt };

    fn see(&mut self) -> u64 {
        self.asks += 1;
        0
    }
}
