// The fields of a line, and the numbers that they are.
ghost use Rattle.std.specs.Prelude.{◌≡◌, ◌≢◌, ◌≤◌, ◌<◌, ◌+◌, ◌∷◌, [], ℕ, min, length, take, slice_index, Some, None, IsTrue, ◌↔◌, IfOk, MatchOption};
ghost use Rattle.std.specs.Iterator.{YieldsFirstRef, item_count};
ghost use Rattle.gi_text.specs.Numbers.{magnitude, size_of};
ghost use Rattle.gi_aiger.specs.Fields.{fields_of, split_space, numbers_of, Keeps};

use gi_text::{Number, read_number, skip};
use std::alloc::{AllocError, Global};
use std::marker::Model;

/// Stands for every number that is too big for any limit.
pub const TOO_BIG: u64 = 4_294_967_296;

/// The fields of a line, from the front. Single spaces part them.
#[derive(Drop)]
pub struct Fields<'a> {
    rest: &'a [u8],
    done: bool,
}

impl<'a> Model for Fields<'a> {
    ghost use Rattle.std.specs.Prelude.{List, ℕ, [], if◌then◌else◌};
    ghost use Rattle.gi_aiger.specs.Fields.{fields_of};

    ghost Value = { List (List ℕ) };

    ghost view = { λ f. if f.done then [] else fields_of f.rest.now };
}

impl<'a> Fields<'a> {
    #[tactic(auto, using(crate::proofs::Parting::fields_len))]
    pub fn new(line: &'a [u8]) -> Fields<'a>
        ensures fields { result ≡ fields_of line.now }
        ensures len { length result ≤ length line.now + 1 }
    {
        Fields {
            rest: line,
            done: false,
        }
    }
}

impl<'a> Iterator for Fields<'a> {
    type Item = &'a [u8];

    ghost next_gives = { YieldsFirstRef (λ fields. fields) };

    ghost remaining = { item_count (λ fields. fields) };

    fn next(&mut self) -> Option<&'a [u8]> {
        if self.done {
            return None;
        }
        match split_field(self.rest) {
            Some((field, rest)) => {
                self.rest = rest;
                Some(field)
            }
            None => {
                self.done = true;
                Some(self.rest)
            }
        }
    }
}

/// The first field, and what stands behind its space. None exactly where there is one field only.
pub fn split_field(line: &[u8]) -> Option<(&[u8], &[u8])>
    ensures fields { MatchOption result (fields_of line.now ≡ line.now ∷ []) (λ p. fields_of line.now ≡ p.0.now ∷ fields_of p.1.now) }
    ensures space { MatchOption result (split_space line.now ≡ None) (λ p. split_space line.now ≡ Some (p.0.now, p.1.now)) }
{
    let n = field_len(line);
    if n == line.len() {
        return None;
    }
    Some((front(line, n), skip(line, n + 1)))
}

// How many bytes stand in front of the first space.
fn field_len(bytes: &[u8]) -> usize
    ensures fits { result ≤ length bytes.now }
    ensures inside { (k : ℕ) → k < result → slice_index bytes.now k ≢ 32 }
    ensures ends { result < length bytes.now → slice_index bytes.now result ≡ 32 }
{
    for (i, b) in bytes.iter().enumerate() {
        if *b == b' ' {
            return i;
        }
    }
    bytes.len()
}

// What stands up to a place.
fn front(bytes: &[u8], n: usize) -> &[u8]
    requires { n ≤ length bytes.now }
    ensures { result.now ≡ take n bytes.now }
{
    &bytes[..n]
}

/// The unsigned number that a field is, up to `TOO_BIG`.
pub fn read_unsigned(field: &[u8]) -> Option<u64>
    ensures { MatchOption result (magnitude field.now ≡ None) (λ m. (n : ℕ) × (magnitude field.now ≡ Some n) × (m ≡ min n 4294967296)) }
{
    if begins_minus(field) {
        return None;
    }
    match read_number(field) {
        Number::NotNumber => None,
        Number::TooBig => Some(TOO_BIG),
        Number::Value(z) => Some(size(z)),
    }
}

// How great a number is.
fn size(z: i64) -> u64
    requires { size_of z ≤ 4294967295 }
    ensures { result ≡ size_of z }
{
    if z < 0 { -z as u64 } else { z as u64 }
}

fn begins_minus(field: &[u8]) -> bool
    ensures { IsTrue result ↔ (slice_index field.now 0 ≡ 45) }
{
    !field.is_empty() && field[0] == b'-'
}

/// The number at a place, 0 past the last.
pub fn number_at(numbers: &[u64], place: usize) -> u64
    ensures { result ≡ slice_index numbers.now place }
{
    if place < numbers.len() {
        numbers[place]
    } else {
        0
    }
}

/// The numbers of a line, each up to `TOO_BIG`. None exactly where a field is no unsigned number.
pub fn read_numbers(alloc: Global, line: &[u8]) -> Result<Option<Vec<u64>>, AllocError>
    ensures { IfOk result (λ read. MatchOption read (numbers_of line.now ≡ None) (λ ns. Keeps ns.items (numbers_of line.now))) }
{
    let mut numbers = Vec::new(alloc);
    let mut fields = Fields::new(line);
    'fields: while let Some(field) = fields.next() {
        match read_unsigned(field) {
            None => return Ok(None),
            Some(n) => numbers.push(n)?,
        }
    }
    Ok(Some(numbers))
}
