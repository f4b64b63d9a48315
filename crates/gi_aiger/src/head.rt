// The header's line.
ghost use Rattle.std.specs.Prelude.{◌≡◌, Some, true, length, slice_index, IfOk};
ghost use Rattle.gi_aiger.specs.Header.{form_of, head_of, is_fitting, is_tried, is_wrong, is_within, judge_head, has_head, head_numbers, head_parts, header_of};
ghost use Rattle.gi_aiger.specs.Fields.{numbers_of};

use crate::fault::AigCode;
use crate::fields::{number_at, read_numbers, split_field};
use crate::limits::MOST_ITEMS;
use std::alloc::{AllocError, Global};

/// The two forms of AIGER.
#[derive(Clone, Copy, Debug, PartialEq, Eq)]
pub enum Form {
    /// Every line is text. The header's word is `aag`.
    Ascii,
    /// Inputs have no lines, and gates are bytes. The header's word is `aig`.
    Binary,
}

/// What a header says: the form, the greatest variable, and how many of each there are.
#[derive(Clone, Copy, Debug, PartialEq, Eq)]
pub struct Head {
    pub form: Form,
    pub max: u64,
    pub inputs: u64,
    pub latches: u64,
    pub outs: u64,
    pub gates: u64,
    pub bads: u64,
    pub cons: u64,
    pub justice: u64,
    pub fair: u64,
}

/// Only where all numbers are at most this is the greatest variable tried against them.
const TRIED: u64 = 4_294_967_295;

// The form that the header's word names.
fn form_of(word: &[u8]) -> Option<Form>
    ensures { result ≡ form_of word.now }
{
    if word == b"aag".as_slice() {
        return Some(Form::Ascii);
    }
    if word == b"aig".as_slice() {
        return Some(Form::Binary);
    }
    None
}

fn head_of(form: Form, numbers: &[u64]) -> Head
    ensures { result ≡ head_of form numbers.now }
{
    Head {
        form,
        max: number_at(numbers, 0),
        inputs: number_at(numbers, 1),
        latches: number_at(numbers, 2),
        outs: number_at(numbers, 3),
        gates: number_at(numbers, 4),
        bads: number_at(numbers, 5),
        cons: number_at(numbers, 6),
        justice: number_at(numbers, 7),
        fair: number_at(numbers, 8),
    }
}

fn is_fitting(form: Form, max: u64, defined: u64) -> bool
    ensures { result ≡ is_fitting form max defined }
{
    match form {
        Form::Ascii => defined <= max,
        Form::Binary => defined == max,
    }
}

fn is_tried(head: Head) -> bool
    ensures { result ≡ is_tried head }
{
    head.max <= TRIED && head.inputs <= TRIED && head.latches <= TRIED && head.gates <= TRIED
}

fn is_wrong(head: Head) -> bool
    ensures { result ≡ is_wrong head }
{
    if !is_tried(head) {
        return false;
    }
    !is_fitting(head.form, head.max, head.inputs + head.latches + head.gates)
}

fn is_within(head: Head) -> bool
    ensures { result ≡ is_within head }
{
    head.max <= MOST_ITEMS
        && head.inputs <= MOST_ITEMS
        && head.latches <= MOST_ITEMS
        && head.outs <= MOST_ITEMS
        && head.gates <= MOST_ITEMS
        && head.bads <= MOST_ITEMS
        && head.cons <= MOST_ITEMS
        && head.justice <= MOST_ITEMS
        && head.fair <= MOST_ITEMS
}

// The header is tried before its limits.
fn judge(head: Head) -> Result<Head, AigCode>
    ensures read { result ≡ judge_head head }
    ensures within { IfOk result (λ h. is_within h ≡ true) }
{
    if is_wrong(head) {
        return Err(AigCode::Header);
    }
    if !is_within(head) {
        return Err(AigCode::Limit);
    }
    Ok(head)
}

// What the numbers of a header say, each up to a cap.
fn judge_numbers(form: Form, numbers: &[u64]) -> Result<Head, AigCode>
    ensures read { result ≡ head_numbers form numbers.now }
    ensures within { IfOk result (λ h. is_within h ≡ true) }
{
    if numbers.len() < 5 || numbers.len() > 9 {
        return Err(AigCode::Header);
    }
    judge(head_of(form, numbers))
}

// What stands behind the header's word.
fn read_counts(alloc: Global, form: Form, line: &[u8]) -> Result<Result<Head, AigCode>, AllocError>
    ensures read { IfOk result (λ read. read ≡ head_parts (Some form) (numbers_of line.now)) }
    ensures within { IfOk result (λ read. IfOk read (λ h. is_within h ≡ true)) }
{
    match read_numbers(alloc, line)? {
        None => Ok(Err(AigCode::Header)),
        Some(numbers) => Ok(judge_numbers(form, numbers.as_slice())),
    }
}

/// What the header's line says, or its fault. Every number of a header that is read is within its limit.
#[tactic(auto, unfolding(crate::specs::Header::header_of))]
pub fn read_header(alloc: Global, line: &[u8]) -> Result<Result<Head, AigCode>, AllocError>
    ensures read { IfOk result (λ read. read ≡ header_of line.now) }
    ensures within { IfOk result (λ read. IfOk read (λ h. is_within h ≡ true)) }
{
    match split_field(line) {
        None => Ok(Err(AigCode::Header)),
        Some((word, rest)) => match form_of(word) {
            None => Ok(Err(AigCode::Header)),
            Some(form) => read_counts(alloc, form, rest),
        },
    }
}
