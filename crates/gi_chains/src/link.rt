ghost use Rattle.std.specs.Prelude.{◌≡◌, ◌+◌, ◌<◌, ◌^◌, Some, None};
ghost use Rattle.std.specs.Option.{option_or};
ghost use Rattle.gi_chains.specs.Words.{kept_if_some};

use std::marker::Model;

/// A number below 2^32 - 1, as that of a node, a list or a place, or none, in one word of 32 bits.
/// Contracts see an optional number.
#[derive(Clone, Copy, Debug)]
pub struct Link {
    /// 0 for none, else the number and one.
    word: u32,
}

impl Model for Link {
    ghost use Rattle.std.specs.Prelude.{ℕ, Option};
    ghost use Rattle.gi_chains.specs.Words.{link_of, word_of, word_of-link_of};

    ghost Value = { Option ℕ };

    ghost view = { λ l. link_of l.word };

    ghost inverse = { λ o. record { word = word_of o } };

    ghost inverse_ok = { λ l _ i. record { word = word_of-link_of l.word i } };
}

impl Link {
    /// None.
    pub fn none() -> Link
        ensures { result ≡ None }
    {
        Link { word: 0 }
    }

    /// The number.
    pub fn to(node: u32) -> Link
        requires { node + 1 < 2 ^ 32 }
        ensures { result ≡ Some node }
    {
        Link { word: node + 1 }
    }

    /// The number, if there is one.
    pub fn get(self) -> Option<u32>
        ensures { result ≡ self }
    {
        self.word.checked_sub(1)
    }

    /// The same as a number of 64 bits.
    pub(crate) fn number(self) -> Option<u64>
        ensures { result ≡ self }
    {
        match self.get() {
            None => None,
            Some(node) => Some(u64::from(node)),
        }
    }

    /// This link, or the number where it is none.
    pub(crate) fn or(self, node: u32) -> Link
        requires { node + 1 < 2 ^ 32 }
        ensures { result ≡ option_or self (Some node) }
    {
        if self.word == 0 { Link::to(node) } else { self }
    }

    /// The kept one where this is a number, else the other.
    pub(crate) fn choose(self, kept: Link, other: Link) -> Link
        ensures { result ≡ kept_if_some self kept other }
    {
        if self.word == 0 { other } else { kept }
    }
}
