// The numbers that words are.
ghost use Rattle.std.specs.Prelude.{◌≡◌, ◌≤◌, ◌+◌, ℕ, length, drop, min, None, Some, pos, option_map, MatchOption};
ghost use Rattle.gi_text.specs.Numbers.{magnitude, negated, number_of};
ghost use Rattle.gi_text.specs.Number.{Reads};

/// What a word is as a number.
#[derive(Clone, Copy, Debug, PartialEq, Eq)]
pub enum Number {
    /// A number, of a magnitude of at most 4,294,967,295.
    Value(i64),
    /// No number.
    NotNumber,
    /// A number of a greater magnitude.
    TooBig,
}

// Stands for every magnitude that is too big.
const TOO_BIG: u64 = 4_294_967_296;

/// Reads a word as a number: one or more decimal digits, which may begin with zeros, behind a `-`
/// for a negative one. There is no negative zero, and no `+`.
pub fn read_number(word: &[u8]) -> Number
    ensures { Reads result (number_of word.now) }
{
    if word.is_empty() {
        return Number::NotNumber;
    }
    if word[0] == b'-' {
        return negative(skip_first(word));
    }
    plain(word)
}

// All but the first.
fn skip_first(bytes: &[u8]) -> &[u8]
    requires { 1 ≤ length bytes.now }
    ensures { result.now ≡ drop 1 bytes.now }
{
    &bytes[1..]
}

fn plain(digits: &[u8]) -> Number
    ensures { Reads result (option_map pos (magnitude digits.now)) }
{
    match read_magnitude(digits) {
        None => Number::NotNumber,
        Some(m) => {
            if m == TOO_BIG {
                Number::TooBig
            } else {
                Number::Value(m as i64)
            }
        }
    }
}

fn negative(digits: &[u8]) -> Number
    ensures { Reads result (negated (magnitude digits.now)) }
{
    match read_magnitude(digits) {
        None => Number::NotNumber,
        Some(0) => Number::NotNumber,
        Some(m) => {
            if m == TOO_BIG {
                Number::TooBig
            } else {
                Number::Value(-(m as i64))
            }
        }
    }
}

// What the digits are, up to `TOO_BIG`.
fn read_magnitude(digits: &[u8]) -> Option<u64>
    ensures { MatchOption result (magnitude digits.now ≡ None)
        (λ m. (n : ℕ) × (magnitude digits.now ≡ Some n) × (m ≡ min n 4294967296)) }
{
    if digits.is_empty() {
        return None;
    }
    let mut m: u64 = 0;
    for b in digits {
        if *b < b'0' || *b > b'9' {
            return None;
        }
        m = (10 * m + u64::from(*b - b'0')).min(TOO_BIG);
    }
    Some(m)
}
