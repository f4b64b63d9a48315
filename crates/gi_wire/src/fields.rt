// The fields of a line.
ghost use Rattle.std.specs.Prelude.{◌≡◌, ◌≢◌, ◌≤◌, ◌<◌, ◌∷◌, [], ℕ, length, drop, slice_index, take, IsTrue, ◌↔◌, MatchOption};
ghost use Rattle.gi_wire.specs.Fields.{fields_of};

use gi_text::skip;
use std::marker::Model;

// The fields of a line, from the front: what stands between its spaces.
#[derive(Drop)]
pub struct Fields<'a> {
    rest: &'a [u8],
    // The last one was taken.
    done: bool,
}

impl<'a> Model for Fields<'a> {
    ghost use Rattle.std.specs.Prelude.{List, ℕ, [], if◌then◌else◌};
    ghost use Rattle.gi_wire.specs.Fields.{fields_of};

    ghost Value = { List (List ℕ) };

    ghost view = { λ f. if f.done then [] else fields_of f.rest.now };
}

impl<'a> Fields<'a> {
    // All fields of the line, one at least.
    pub fn new(line: &'a [u8]) -> Fields<'a>
        ensures { result ≡ fields_of line.now }
    {
        Fields {
            rest: line,
            done: false,
        }
    }

    // Whether all were taken.
    pub fn is_empty(&self) -> bool
        ensures { IsTrue result ↔ (self.now ≡ []) }
    {
        self.done
    }

    // The next field.
    pub fn take(&mut self) -> Option<&'a [u8]>
        ensures { MatchOption result ((self.old ≡ []) × (self.new ≡ []))
            (λ field. self.old ≡ field.now ∷ self.new) }
    {
        if self.done {
            return None;
        }
        match split_field(self.rest) {
            (field, Some(rest)) => {
                self.rest = rest;
                Some(field)
            }
            (field, None) => {
                self.done = true;
                Some(field)
            }
        }
    }
}

// The first field, and what stands behind its space.
fn split_field(line: &[u8]) -> (&[u8], Option<&[u8]>)
    ensures { MatchOption result.1 (fields_of line.now ≡ result.0.now ∷ [])
        (λ rest. fields_of line.now ≡ result.0.now ∷ fields_of rest.now) }
{
    let n = field_len(line);
    if n == line.len() {
        return (line, None);
    }
    let (field, behind) = line.split_at(n);
    (field, Some(skip(behind, 1)))
}

// How many bytes stand before the first space.
fn field_len(bytes: &[u8]) -> usize
    ensures fits { result ≤ length bytes.now }
    ensures same { (k : ℕ) → k < result → slice_index bytes.now k ≢ 32 }
    ensures ends { result < length bytes.now → slice_index bytes.now result ≡ 32 }
{
    for (i, b) in bytes.iter().enumerate() {
        if *b == b' ' {
            return i;
        }
    }
    bytes.len()
}
