ghost use Rattle.std.specs.Prelude.{◌≡◌, ◌+◌, ◌<◌, ◌^◌};

use std::marker::Model;

/// The name of a stored clause, which the store picks. Contracts see its number, which is below
/// 2^32 - 1.
#[derive(Clone, Copy, Debug, PartialEq, Eq)]
pub struct Key {
    slot: u32,
}

impl Model for Key {
    ghost use Rattle.std.specs.Prelude.{ℕ, ◌+◌, ◌<◌, ◌^◌};

    ghost Value = { ℕ };

    ghost view = { λ k. k.slot };

    ghost invariant = { λ k. k.slot + 1 < 2 ^ 32 };

    ghost inverse = { λ n. record { slot = n } };
}

impl Key {
    /// The key of that number.
    pub fn of(number: u32) -> Key
        requires { number + 1 < 2 ^ 32 }
        ensures { result ≡ number }
    {
        Key { slot: number }
    }

    /// Its number, which no other key has at the same time.
    pub fn number(self) -> u64
        ensures value { result ≡ self }
        ensures small { result + 1 < 2 ^ 32 }
    {
        u64::from(self.slot)
    }

    pub(crate) fn slot(self) -> usize
        ensures { result ≡ self }
    {
        self.slot as usize
    }
}
