ghost use Rattle.std.specs.Prelude.{◌≡◌, ◌/◌, ◌%◌, ◌==◌};
ghost use Rattle.gi_lit.specs.Literals.{opposite};

use std::marker::Model;

/// A literal of a circuit in the coding of AIGER: 0 is constant false and 1 constant true, 2k and
/// 2k + 1 are node k and its negation. Contracts see its code.
#[derive(Clone, Copy, Debug, PartialEq, Eq, PartialOrd, Ord, Hash)]
pub struct Edge {
    code: u32,
}

impl Model for Edge {
    ghost use Rattle.std.specs.Prelude.{ℕ};

    ghost Value = { ℕ };

    ghost view = { λ e. e.code };

    ghost inverse = { λ n. record { code = n } };
}

impl Edge {
    /// The edge of that code.
    pub const fn new(code: u32) -> Edge
        ensures { result ≡ code }
    {
        Edge { code }
    }

    /// Its code.
    pub const fn code(self) -> u32
        ensures { result ≡ self }
    {
        self.code
    }

    /// The negation of the same node.
    #[tactic(auto, unfolding(crate::specs::Literals::opposite))]
    pub const fn not(self) -> Edge
        ensures { result ≡ opposite self }
    {
        Edge {
            code: self.code ^ 1,
        }
    }

    /// Its node; 0 for the constants.
    pub const fn node(self) -> u32
        ensures { result ≡ self / 2 }
    {
        self.code / 2
    }

    /// Whether it is the negation of its node.
    pub const fn is_negative(self) -> bool
        ensures { result ≡ (self % 2 == 1) }
    {
        self.code % 2 == 1
    }
}
