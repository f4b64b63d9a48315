// The shortest decimal spelling of a number.
ghost use Rattle.std.specs.Prelude.{◌≡◌, ◌≢◌, ◌≤◌, ◌<◌, ◌^◌, List, ℕ, take, Some, IfSome, IfNone, decimal};
ghost use Rattle.std.specs.Fmt.{signed_decimal};

use itoa::Buffer;
use std::marker::Model;
use std::str;

/// The shortest decimal spelling of a number, with `-` in front of a negative one. Takes no memory.
#[derive(Drop)]
pub struct Digits {
    bytes: [u8; 40],
    len: usize,
}

impl Model for Digits {
    ghost Value = { List ℕ };

    ghost view = { λ d. take d.len d.bytes };

    ghost invariant = { λ d. d.len ≤ 40 };
}

impl Digits {
    /// The spelling of `n`.
    pub fn of(n: i128) -> Digits
        ensures { result ≡ signed_decimal n }
    {
        let mut buffer = Buffer::new();
        let text = buffer.format(n).as_bytes();
        let mut bytes = [0u8; 40];
        let len = text.len();
        bytes[..len].copy_from_slice(text);
        Digits { bytes, len }
    }

    /// The spelling, in ASCII.
    pub fn as_slice(&self) -> &[u8]
        ensures { result.now ≡ self.now }
    {
        &self.bytes[..self.len]
    }
}

/// The number from 0 to 2^64 - 1 whose shortest decimal spelling `word` is. `None` exactly where it
/// is that of none.
pub fn read_digits(word: &[u8]) -> Option<u64>
    ensures found { IfSome result (λ n. word.now ≡ decimal n) }
    ensures none { IfNone result ((n : ℕ) → n < 2 ^ 64 → word.now ≢ decimal n) }
{
    let n = parse(word)?;
    if Digits::of(n as i128).as_slice() == word {
        Some(n)
    } else {
        None
    }
}

// The number that a word may spell.
fn parse(word: &[u8]) -> Option<u64>
    ensures { (n : ℕ) → n < 2 ^ 64 → word.now ≡ decimal n → result ≡ Some n }
{
    match str::from_utf8(word) {
        Ok(text) => match text.parse::<u64>() {
            Ok(n) => Some(n),
            Err(_) => None,
        },
        Err(_) => None,
    }
}
