ghost use Rattle.std.specs.Prelude.{◌≡◌, ◌+◌, ◌*◌, ◌/◌, ◌%◌, ◌≤◌, ◌==◌, nat_abs, if◌then◌else◌};
ghost use Rattle.std.specs.Option.{SomeIff};
ghost use Rattle.gi_lit.specs.Literals.{max_var, IsVariable, IsLiteral, literal_of, number_of, opposite};

use crate::var::{MAX_VAR, Var};
use std::marker::Model;

/// A literal: a variable or its negation. Contracts see its code: variable v has the positive
/// literal 2v and the negative literal 2v + 1. There is no null literal.
#[derive(Clone, Copy, Debug, PartialEq, Eq, PartialOrd, Ord, Hash)]
pub struct Lit {
    code: u32,
}

impl Model for Lit {
    ghost use Rattle.std.specs.Prelude.{ℕ};
    ghost use Rattle.gi_lit.specs.Literals.{IsLiteral};

    ghost Value = { ℕ };

    ghost view = { λ l. l.code };

    ghost invariant = { λ l. IsLiteral l.code };

    ghost inverse = { λ n. record { code = n } };
}

impl Lit {
    /// The literal that DIMACS writes as this number, v or -v. None exactly for 0 and where the
    /// magnitude is above `MAX_VAR`.
    pub fn from_dimacs(n: i32) -> Option<Lit>
        ensures { SomeIff result (IsVariable (nat_abs n)) (literal_of n) }
    {
        let v = Var::new(n.unsigned_abs())?;
        Some(Lit::of(v, n < 0))
    }

    /// The number that DIMACS writes for it, from 1 to `MAX_VAR` or the negative of such a number.
    #[tactic(auto, unfolding(crate::specs::Literals::number_of))]
    pub fn to_dimacs(self) -> i32
        ensures value { result ≡ number_of self }
        ensures code { literal_of result ≡ self }
    {
        let v = (self.code / 2) as i32;
        if self.is_negative() { -v } else { v }
    }

    /// The literal of that code. None exactly below 2 and above `2 * MAX_VAR + 1`.
    pub const fn from_code(code: u32) -> Option<Lit>
        ensures { SomeIff result (IsLiteral code) code }
    {
        if code >= 2 && code <= 2 * MAX_VAR + 1 {
            Some(Lit { code })
        } else {
            None
        }
    }

    /// Its code, from 2 to `2 * MAX_VAR + 1`.
    pub const fn code(self) -> u32
        ensures value { result ≡ self }
        ensures low { 2 ≤ result }
        ensures high { result ≤ 2 * max_var + 1 }
    {
        self.code
    }

    /// The other literal of its variable.
    #[tactic(auto, unfolding(crate::specs::Literals::opposite))]
    pub const fn not(self) -> Lit
        ensures { result ≡ opposite self }
    {
        Lit {
            code: self.code ^ 1,
        }
    }

    /// Its variable.
    pub const fn var(self) -> Var
        ensures { result ≡ self / 2 }
    {
        Var::of(self)
    }

    /// Whether it is the negation of its variable.
    pub const fn is_negative(self) -> bool
        ensures { result ≡ (self % 2 == 1) }
    {
        self.code % 2 == 1
    }

    /// The negative or the positive literal of a variable.
    pub(crate) const fn of(v: Var, negative: bool) -> Lit
        ensures { result ≡ 2 * v + (if negative then 1 else 0) }
    {
        let code = 2 * v.index();
        if negative {
            Lit { code: code + 1 }
        } else {
            Lit { code }
        }
    }
}
