// The generator of the drill's numbers.
ghost use Rattle.std.specs.Prelude.{◌≡◌, ◌<◌, ◌≤◌};
ghost use Rattle.gi_drill.specs.Generator.{drawn, next};

use std::marker::Model;

/// A linear congruential generator. Contracts see its state.
#[derive(Drop)]
pub(crate) struct Generator {
    state: u32,
}

impl Model for Generator {
    ghost use Rattle.std.specs.Prelude.{ℕ, ◌<◌};

    ghost Value = { ℕ };

    ghost view = { λ g. g.state };

    ghost invariant = { λ g. g.state < 2147483648 };
}

impl Generator {
    /// A generator that begins with this state.
    pub fn new(seed: u32) -> Generator
        requires { seed ≤ 10000 }
        ensures { result ≡ seed }
    {
        Generator { state: seed }
    }

    /// A number below `bound`.
    #[tactic(auto, unfolding(crate::specs::Generator::next, crate::specs::Generator::drawn))]
    pub fn draw(&mut self, bound: u32) -> u32
        requires { 0 < bound }
        ensures state { self.new ≡ next self.old }
        ensures value { result ≡ drawn bound self.new }
        ensures below { result < bound }
    {
        self.state = stepped(self.state);
        self.state / 65_536 % bound
    }
}

// The next state.
#[tactic(auto, unfolding(crate::specs::Generator::next))]
fn stepped(state: u32) -> u32
    requires { state < 2147483648 }
    ensures value { result ≡ next state }
    ensures low { result < 2147483648 }
{
    let wide = 1_103_515_245 * u64::from(state) + 12_345;
    (wide % 2_147_483_648) as u32
}
