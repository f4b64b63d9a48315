// The header's line.
ghost use Rattle.std.specs.Prelude.{◌≡◌, ℕ, min, None, Some, MatchOption, IsTrue, ◌↔◌, slice_index};
ghost use Rattle.gi_dimacs.specs.Files.{count_at};
ghost use Rattle.gi_dimacs.specs.Machine.{head_step, named_head, head_counts};

use crate::content::Format;
use crate::fault::CnfCode;
use crate::words::magnitude;
use gi_lit::MAX_VAR;
use gi_text::{Number, read_number};

/// What of a header was read.
#[derive(Clone, Copy, Debug, PartialEq, Eq)]
pub enum Head {
    Nothing,
    P,
    Cnf,
    Vars(u32),
    Whole(u32, bool),
    Bad,
}

// A word of the header's line.
pub fn read_head(format: Format, head: Head, word: &[u8]) -> Head
    ensures { result ≡ head_step format head word.now }
{
    match head {
        Head::Nothing => {
            if word == b"p".as_slice() {
                Head::P
            } else {
                Head::Bad
            }
        }
        Head::P => read_name(format, word),
        Head::Cnf => match count_of(word) {
            Some(v) => Head::Vars(v.min(u64::from(MAX_VAR) + 1) as u32),
            None => Head::Bad,
        },
        Head::Vars(v) => match count_of(word) {
            Some(c) => Head::Whole(v, c <= 4_294_967_295),
            None => Head::Bad,
        },
        Head::Whole(_, _) => Head::Bad,
        Head::Bad => Head::Bad,
    }
}

// The word behind `p`.
fn read_name(format: Format, word: &[u8]) -> Head
    ensures { result ≡ named_head format word.now }
{
    match format {
        Format::Cnf => {
            if word == b"cnf".as_slice() {
                Head::Cnf
            } else {
                Head::Bad
            }
        }
        Format::Icnf => {
            if word == b"inccnf".as_slice() {
                Head::Whole(0, true)
            } else {
                Head::Bad
            }
        }
    }
}

// A number from 0 up, to a cap.
fn count_of(word: &[u8]) -> Option<u64>
    ensures { MatchOption result (count_at word.now ≡ None)
        (λ m. (n : ℕ) × (count_at word.now ≡ Some n) × (m ≡ min n 4294967296)) }
{
    if begins_minus(word) {
        return None;
    }
    match read_number(word) {
        Number::NotNumber => None,
        Number::TooBig => Some(4_294_967_296),
        Number::Value(z) => Some(u64::from(magnitude(z))),
    }
}

fn begins_minus(word: &[u8]) -> bool
    ensures { IsTrue result ↔ (slice_index word.now 0 ≡ 45) }
{
    !word.is_empty() && word[0] == b'-'
}

// What the header's line says: its variables.
pub fn check_head(head: Head) -> Result<u32, CnfCode>
    ensures { result ≡ head_counts head }
{
    match head {
        Head::Whole(vars, small) => {
            if vars > MAX_VAR || !small {
                Err(CnfCode::Limit)
            } else {
                Ok(vars)
            }
        }
        _ => Err(CnfCode::Header),
    }
}
