ghost use Rattle.std.specs.Prelude.{◌≡◌, ◌+◌, ◌*◌, ◌/◌, ◌≤◌};
ghost use Rattle.std.specs.Option.{SomeIff};
ghost use Rattle.gi_lit.specs.Literals.{max_var, IsVariable};

use crate::lit::Lit;
use std::marker::Model;

/// The greatest variable.
pub const MAX_VAR: u32 = 16_777_216;

/// A propositional variable, from 1 to `MAX_VAR`. Contracts see its number.
#[derive(Clone, Copy, Debug, PartialEq, Eq, PartialOrd, Ord, Hash)]
pub struct Var {
    index: u32,
}

impl Model for Var {
    ghost use Rattle.std.specs.Prelude.{ℕ};
    ghost use Rattle.gi_lit.specs.Literals.{IsVariable};

    ghost Value = { ℕ };

    ghost view = { λ v. v.index };

    ghost invariant = { λ v. IsVariable v.index };

    ghost inverse = { λ n. record { index = n } };
}

impl Var {
    /// The variable of that number. None exactly for 0 and above `MAX_VAR`.
    pub const fn new(index: u32) -> Option<Var>
        ensures { SomeIff result (IsVariable index) index }
    {
        if index >= 1 && index <= MAX_VAR {
            Some(Var { index })
        } else {
            None
        }
    }

    /// Its number.
    pub const fn index(self) -> u32
        ensures value { result ≡ self }
        ensures low { 1 ≤ result }
        ensures high { result ≤ max_var }
    {
        self.index
    }

    /// The literal that is true where the variable is true.
    pub const fn positive(self) -> Lit
        ensures { result ≡ 2 * self }
    {
        Lit::of(self, false)
    }

    /// The literal that is true where the variable is false.
    pub const fn negative(self) -> Lit
        ensures { result ≡ 2 * self + 1 }
    {
        Lit::of(self, true)
    }

    /// The variable of a literal.
    pub(crate) const fn of(l: Lit) -> Var
        ensures { result ≡ l / 2 }
    {
        Var {
            index: l.code() / 2,
        }
    }
}
