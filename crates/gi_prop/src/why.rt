ghost use Rattle.std.specs.Prelude.{◌≡◌};

use gi_store::Key;
use std::marker::Model;

/// The key of the clause that forced a literal, or none of a decision, in one word of 32 bits.
/// Contracts see an optional key.
#[derive(Clone, Copy)]
pub(crate) struct Why {
    /// 0 for none, else the key's number and one.
    word: u32,
}

impl Model for Why {
    ghost use Rattle.std.specs.Prelude.{ℕ, Option};
    ghost use Rattle.gi_chains.specs.Words.{link_of, word_of, word_of-link_of};

    ghost Value = { Option ℕ };

    ghost view = { λ y. link_of y.word };

    ghost inverse = { λ o. record { word = word_of o } };

    ghost inverse_ok = { λ y _ i. record { word = word_of-link_of y.word i } };
}

impl Why {
    pub fn of(key: Option<Key>) -> Why
        ensures { result ≡ key }
    {
        match key {
            None => Why { word: 0 },
            Some(key) => {
                let number = key.number();
                Why {
                    word: number as u32 + 1,
                }
            }
        }
    }

    pub fn get(self) -> Option<Key>
        ensures { result ≡ self }
    {
        match self.word.checked_sub(1) {
            None => None,
            Some(number) => Some(Key::of(number)),
        }
    }
}
