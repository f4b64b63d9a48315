ghost use Rattle.std.specs.Prelude.{◌≡◌, ◌+◌, ◌<◌, ℕ, max};

/// Tells the mark up to which work is to stop, and is asked again and again while work goes on.
pub trait Brake {
    /// The greatest answer so far.
    ghost top: { Self → ℕ };

    /// How many answers there were so far.
    ghost asks: { Self → ℕ };

    /// What a brake can become by being asked.
    ghost follows: { Self → Self → Type 0 };

    /// The mark now.
    fn see(&mut self) -> u64
        requires { asks self.old < 4294967295 }
        ensures top { top self.new ≡ max (top self.old) result }
        ensures asks { asks self.new ≡ asks self.old + 1 }
        ensures follows { follows self.old self.new };

    ghost reflexive: { (b : Self) → follows b b };

    ghost transitive: { (a b c : Self) → follows a b → follows b c → follows a c };
}
