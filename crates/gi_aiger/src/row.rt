// The lines between the header and the symbols.
ghost use Rattle.std.specs.Prelude.{◌≡◌, ◌≤◌, ℕ, List, Option, length, slice_index, IfOk};
ghost use Rattle.gi_aiger.specs.Fields.{numbers_of, own_in, with_own, Keeps};
ghost use Rattle.gi_aiger.specs.Rows.{has_row, literal_of, defining_of, reset_of, latch_of, gate_of, size_of, row_of, row_numbers, row_read};
ghost use Rattle.gi_aiger.specs.Limits.{most_items};

use crate::aig::{AndGate, Latch, Reset};
use crate::fault::AigCode;
use crate::fields::{TOO_BIG, number_at, read_numbers};
use gi_lit::Edge;
use std::alloc::{AllocError, Global};

/// A section of lines.
#[derive(Clone, Copy, Debug, PartialEq, Eq)]
pub enum Section {
    Input,
    Latch,
    Out,
    Bad,
    Con,
    /// The sizes of the justice properties.
    Size,
    /// The literals of the justice properties.
    Justice,
    Fair,
    Gate,
}

/// What a line of a section says.
#[derive(Clone, Copy, Debug, PartialEq, Eq)]
pub enum Row {
    Input(Edge),
    Latch(Latch),
    Out(Edge),
    Bad(Edge),
    Con(Edge),
    Size(u32),
    Justice(Edge),
    Fair(Edge),
    Gate(AndGate),
}

fn has_row(section: Section, count: usize) -> bool
    ensures { result ≡ has_row section count }
{
    match section {
        Section::Input => count == 1,
        Section::Latch => count == 2 || count == 3,
        Section::Out => count == 1,
        Section::Bad => count == 1,
        Section::Con => count == 1,
        Section::Size => count == 1,
        Section::Justice => count == 1,
        Section::Fair => count == 1,
        Section::Gate => count == 3,
    }
}

// A literal of the variables up to the greatest.
fn literal_of(max: u64, n: u64) -> Result<Edge, AigCode>
    requires { max ≤ most_items }
    ensures { result ≡ literal_of max n }
{
    if n > 2 * max + 1 {
        return Err(AigCode::Literal);
    }
    Ok(Edge::new(n as u32))
}

// A literal that defines its variable.
fn defining_of(max: u64, n: u64) -> Result<Edge, AigCode>
    requires { max ≤ most_items }
    ensures { result ≡ defining_of max n }
{
    if n % 2 == 0 && n >= 2 {
        return literal_of(max, n);
    }
    Err(AigCode::Literal)
}

// What a latch holds at first.
fn reset_of(lit: u64, n: u64) -> Result<Reset, AigCode>
    ensures { result ≡ reset_of lit n }
{
    if n == 0 {
        return Ok(Reset::Zero);
    }
    if n == 1 {
        return Ok(Reset::One);
    }
    if n == lit {
        return Ok(Reset::Free);
    }
    Err(AigCode::Literal)
}

fn latch_of(max: u64, lit: u64, next: u64, reset: u64) -> Result<Row, AigCode>
    requires { max ≤ most_items }
    ensures { result ≡ latch_of (defining_of max lit) (literal_of max next) (reset_of lit reset) }
{
    match defining_of(max, lit) {
        Err(c) => Err(c),
        Ok(own) => match literal_of(max, next) {
            Err(c) => Err(c),
            Ok(next) => match reset_of(lit, reset) {
                Err(c) => Err(c),
                Ok(reset) => Ok(Row::Latch(Latch {
                    lit: own,
                    next,
                    reset,
                })),
            },
        },
    }
}

fn gate_of(max: u64, lhs: u64, rhs0: u64, rhs1: u64) -> Result<Row, AigCode>
    requires { max ≤ most_items }
    ensures { result ≡ gate_of (defining_of max lhs) (literal_of max rhs0) (literal_of max rhs1) }
{
    match defining_of(max, lhs) {
        Err(c) => Err(c),
        Ok(lhs) => match literal_of(max, rhs0) {
            Err(c) => Err(c),
            Ok(rhs0) => match literal_of(max, rhs1) {
                Err(c) => Err(c),
                Ok(rhs1) => Ok(Row::Gate(AndGate { lhs, rhs0, rhs1 })),
            },
        },
    }
}

// A justice property's size.
fn size_of(room: u64, n: u64) -> Result<u32, AigCode>
    requires { room ≤ most_items }
    ensures { result ≡ size_of room n }
{
    if n > room {
        return Err(AigCode::Limit);
    }
    Ok(n as u32)
}

// What the numbers of a line say, if they are as many as the section has.
fn row_of(max: u64, room: u64, section: Section, numbers: &[u64]) -> Result<Row, AigCode>
    requires max { max ≤ most_items }
    requires room { room ≤ most_items }
    ensures { result ≡ row_of max room section numbers.now }
{
    let first = number_at(numbers, 0);
    match section {
        Section::Input => defining_of(max, first).map(Row::Input),
        Section::Latch => latch_of(max, first, number_at(numbers, 1), number_at(numbers, 2)),
        Section::Out => literal_of(max, first).map(Row::Out),
        Section::Bad => literal_of(max, first).map(Row::Bad),
        Section::Con => literal_of(max, first).map(Row::Con),
        Section::Size => size_of(room, first).map(Row::Size),
        Section::Justice => literal_of(max, first).map(Row::Justice),
        Section::Fair => literal_of(max, first).map(Row::Fair),
        Section::Gate => gate_of(max, first, number_at(numbers, 1), number_at(numbers, 2)),
    }
}

// What the numbers of a line say.
fn row_numbers(max: u64, room: u64, section: Section, numbers: &[u64]) -> Result<Row, AigCode>
    requires max { max ≤ most_items }
    requires room { room ≤ most_items }
    ensures { result ≡ row_numbers max room section numbers.now }
{
    if has_row(section, numbers.len()) {
        return row_of(max, room, section, numbers);
    }
    Err(AigCode::Count)
}

// The numbers, each up to a cap, with the one that the line leaves out.
fn with_own(alloc: Global, own: Option<u64>, numbers: Vec<u64>) -> Result<Vec<u64>, AllocError>
    ensures { IfOk result (λ all. (read : Option (List ℕ)) → Keeps numbers.items read → Keeps all.items (with_own own read)) }
{
    match own {
        None => Ok(numbers),
        Some(own) => {
            let mut all = Vec::new(alloc);
            all.push(own.min(TOO_BIG))?;
            all.extend_from_slice(numbers.as_slice())?;
            Ok(all)
        }
    }
}

/// What a line of a section says, or its first fault by itself. `max` is the greatest variable, `room` how many more
/// justice literals there may be, and `own` the number in front of the line's, where the form leaves it out.
pub fn read_row(
    alloc: Global,
    max: u64,
    room: u64,
    section: Section,
    own: Option<u64>,
    line: &[u8],
) -> Result<Result<Row, AigCode>, AllocError>
    requires max { max ≤ most_items }
    requires room { room ≤ most_items }
    ensures { IfOk result (λ read. read ≡ row_read max room section (with_own own (numbers_of line.now))) }
{
    match read_numbers(alloc, line)? {
        None => Ok(Err(AigCode::Count)),
        Some(numbers) => {
            let numbers = with_own(alloc, own, numbers)?;
            Ok(row_numbers(max, room, section, numbers.as_slice()))
        }
    }
}
