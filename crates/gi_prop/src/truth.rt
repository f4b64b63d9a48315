ghost use Rattle.std.specs.Prelude.{◌≡◌, Some, None};

use std::marker::Model;

/// Whether a variable is true or false, or neither, in one byte. Contracts see an optional `bool`.
#[derive(Clone, Copy)]
pub(crate) struct Truth {
    /// 0 for neither, 1 for true, 2 for false.
    code: u8,
}

impl Model for Truth {
    ghost use Rattle.std.specs.Prelude.{ℕ, ◌≤◌, Bool, Option};
    ghost use Rattle.gi_prop.specs.Truths.{truth_of, code_of, code_of-truth_of};

    ghost Value = { Option Bool };

    ghost view = { λ t. truth_of t.code };

    ghost invariant = { λ t. t.code ≤ 2 };

    ghost inverse = { λ o. record { code = code_of o } };

    ghost inverse_ok = { λ t h i. record { code = code_of-truth_of t.code h i } };
}

impl Truth {
    /// Neither.
    pub fn unknown() -> Truth
        ensures { result ≡ None }
    {
        Truth { code: 0 }
    }

    pub fn of(positive: bool) -> Truth
        ensures { result ≡ Some positive }
    {
        if positive {
            Truth { code: 1 }
        } else {
            Truth { code: 2 }
        }
    }

    pub fn get(self) -> Option<bool>
        ensures { result ≡ self }
    {
        match self.code {
            0 => None,
            1 => Some(true),
            _ => Some(false),
        }
    }
}
