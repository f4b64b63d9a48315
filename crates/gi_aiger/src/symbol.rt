// A symbol's line.
ghost use Rattle.std.specs.Prelude.{◌≡◌, ◌≤◌, ◌<◌, true, IfOk, IfSome};
ghost use Rattle.gi_text.specs.Numbers.{magnitude};
ghost use Rattle.gi_aiger.specs.Symbols.{place_in, places_of, symbol_of, symbol_parts};
ghost use Rattle.gi_aiger.specs.Fields.{split_space};
ghost use Rattle.gi_aiger.specs.Header.{is_within};
ghost use Rattle.gi_aiger.specs.Limits.{most_items};

use crate::aig::Symbol;
use crate::fields::{read_unsigned, split_field};
use crate::head::Head;
use gi_text::{Bytes, skip};
use std::alloc::{AllocError, Global};

// How many places the section of a kind has.
fn places_of(head: &Head, kind: u8) -> u64
    ensures places { result ≡ places_of head.now kind }
    ensures kind { 0 < result → (98 ≤ kind) × (kind < 114) }
{
    match kind {
        b'i' => head.inputs,
        b'l' => head.latches,
        b'o' => head.outs,
        b'b' => head.bads,
        b'c' => head.cons,
        b'j' => head.justice,
        b'f' => head.fair,
        _ => 0,
    }
}

// The place, if the section has it.
fn place_of(places: u64, field: &[u8]) -> Option<u32>
    requires { places ≤ most_items }
    ensures place { result ≡ place_in places (magnitude field.now) }
    ensures some { IfSome result (λ place. place < places) }
{
    match read_unsigned(field) {
        None => None,
        Some(place) => {
            if place < places {
                Some(place as u32)
            } else {
                None
            }
        }
    }
}

// What stands behind a symbol's kind.
fn read_parts(
    alloc: Global,
    places: u64,
    kind: u8,
    rest: &[u8],
) -> Result<Option<Symbol>, AllocError>
    requires { places ≤ most_items }
    ensures read { IfOk result (λ read. read ≡ symbol_parts places kind (split_space rest.now)) }
    ensures kind { IfOk result (λ read. IfSome read (λ s. (s.kind ≡ kind) × (s.place < places))) }
{
    match split_field(rest) {
        None => Ok(None),
        Some((field, name)) => match place_of(places, field) {
            None => Ok(None),
            Some(place) => {
                if name.is_empty() {
                    return Ok(None);
                }
                Ok(Some(Symbol {
                    kind,
                    place,
                    name: Bytes::of(alloc, name)?,
                }))
            }
        },
    }
}

/// The symbol that a line is. None exactly where it is none of a file with this header.
pub fn read_symbol(alloc: Global, head: &Head, line: &[u8]) -> Result<Option<Symbol>, AllocError>
    requires { is_within head.now ≡ true }
    ensures read { IfOk result (λ read. read ≡ symbol_of head.now line.now) }
    ensures kind { IfOk result (λ read. IfSome read (λ s. (98 ≤ s.kind) × (s.kind < 114) × (s.place < most_items))) }
{
    if line.is_empty() {
        return Ok(None);
    }
    let kind = line[0];
    read_parts(alloc, places_of(head, kind), kind, skip(line, 1))
}
