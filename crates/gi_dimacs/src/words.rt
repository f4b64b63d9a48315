// What the words of a body give.
ghost use Rattle.std.specs.Prelude.{◌≡◌, ◌≢◌, ◌≤◌, ◌<◌, ◌+◌, ◌++◌, ◌∷◌, max, [], ℤ, pos, IfOk, OnOk, Ok, Err};
ghost use Rattle.gi_text.specs.Numbers.{size_of};
ghost use Rattle.gi_lit.specs.Literals.{literal_of, max_var};
ghost use Rattle.gi_dimacs.specs.Files.{begin, closed, asked, with_literal, with_assumption, begins_number, number_in, add_number, add_word};
ghost use Rattle.gi_dimacs.specs.Adds.{Gives, GivesAsk, Is};

use crate::content::{Content, Format, add_ask, add_clause, nothing};
use crate::fault::CnfCode;
use gi_lit::{Lit, Lits, MAX_VAR};
use gi_text::{Number, read_number};
use std::alloc::{AllocError, Global};
use std::mem;

/// What the words of a body gave so far.
#[derive(Drop)]
pub struct Taken {
    /// The greatest variable so far, that of the header included.
    pub vars: u32,
    /// The clauses and asks that have ended.
    pub content: Content,
    /// How many clauses have ended.
    pub ended: u32,
    /// The literals of the clause, or of the ask, that is open.
    pub begun: Lits,
    /// How many literals the clauses have, the open one included.
    pub literals: u32,
}

const MAX_CLAUSES: u32 = 4_194_304;

const MAX_LITERALS: u32 = 67_108_864;

const MAX_ASSUMPTIONS: usize = 1_048_576;

/// Nothing but a header's variables.
pub fn begin(alloc: Global, format: Format, vars: u32) -> Taken
    ensures { result ≡ begin format vars }
{
    Taken {
        vars,
        content: nothing(alloc, format),
        ended: 0,
        begun: Lits::new(alloc),
        literals: 0,
    }
}

// The open clause ends.
fn close(taken: &mut Taken, alloc: Global) -> Result<(), AllocError>
    requires { taken.old.ended < 4194304 }
    ensures { OnOk result (taken.new ≡ closed taken.old) }
{
    let begun = mem::replace(&mut taken.begun, Lits::new(alloc));
    add_clause(&mut taken.content, begun)?;
    taken.ended += 1;
    Ok(())
}

// The ask ends.
fn close_ask(taken: &mut Taken, alloc: Global) -> Result<(), AllocError>
    ensures { OnOk result (taken.new ≡ asked taken.old) }
{
    let begun = mem::replace(&mut taken.begun, Lits::new(alloc));
    add_ask(&mut taken.content, begun)
}

// A literal goes to what is open.
fn begin_literal(taken: &mut Taken, z: i64) -> Result<(), AllocError>
    requires some { z ≢ pos 0 }
    requires small { size_of z ≤ max_var }
    ensures { OnOk result (taken.new ≡ with_assumption taken.old z) }
{
    let lit = literal(z);
    taken.vars = taken.vars.max(magnitude(z));
    taken.begun.push(lit)
}

// A literal goes to the open clause.
fn add_literal(taken: &mut Taken, z: i64) -> Result<(), AllocError>
    requires some { z ≢ pos 0 }
    requires small { size_of z ≤ max_var }
    requires room { taken.old.literals < 67108864 }
    ensures { OnOk result (taken.new ≡ with_literal taken.old z) }
{
    begin_literal(taken, z)?;
    taken.literals += 1;
    Ok(())
}

// The literal of a number.
fn literal(z: i64) -> Lit
    requires some { z ≢ pos 0 }
    requires small { size_of z ≤ max_var }
    ensures { result ≡ literal_of z }
{
    match Lit::from_dimacs(z as i32) {
        Some(lit) => lit,
        None => unreachable!(),
    }
}

/// How great a number is.
pub fn magnitude(z: i64) -> u32
    requires { size_of z ≤ 4294967295 }
    ensures { result ≡ size_of z }
{
    if z < 0 { -z as u32 } else { z as u32 }
}

// A number of a clause.
fn number(taken: &mut Taken, alloc: Global, z: i64) -> Result<Option<CnfCode>, AllocError>
    requires { size_of z ≤ max_var }
    ensures { IfOk result (λ code. Gives code (add_number taken.old z) taken.old taken.new) }
{
    if z == 0 {
        if taken.ended >= MAX_CLAUSES {
            return Ok(Some(CnfCode::Limit));
        }
        close(taken, alloc)?;
        return Ok(None);
    }
    if taken.literals >= MAX_LITERALS {
        return Ok(Some(CnfCode::Limit));
    }
    add_literal(taken, z)?;
    Ok(None)
}

fn is_begun_as_number(word: &[u8]) -> bool
    ensures { result ≡ begins_number word.now }
{
    match word {
        [] => false,
        [b, ..] => *b == b'-' || b.is_ascii_digit(),
    }
}

// The number that a word is, within the variables.
#[tactic(auto, unfolding(crate::specs::Files::number_in))]
fn word_number(word: &[u8]) -> Result<i64, CnfCode>
    ensures { Is result (number_in word.now) }
{
    if !is_begun_as_number(word) {
        return Err(CnfCode::Word);
    }
    match read_number(word) {
        Number::NotNumber => Err(CnfCode::Number),
        Number::TooBig => Err(CnfCode::Limit),
        Number::Value(z) => {
            if magnitude(z) > MAX_VAR {
                return Err(CnfCode::Limit);
            }
            Ok(z)
        }
    }
}

/// A word of the clauses.
#[tactic(auto, unfolding(crate::specs::Files::add_word))]
pub fn word_of_body(
    taken: &mut Taken,
    alloc: Global,
    word: &[u8],
) -> Result<Option<CnfCode>, AllocError>
    ensures { IfOk result (λ code. Gives code (add_word taken.old word.now) taken.old taken.new) }
{
    match word_number(word) {
        Ok(z) => number(taken, alloc, z),
        Err(code) => Ok(Some(code)),
    }
}

/// What a word of an ask did.
#[derive(Clone, Copy, Debug, PartialEq, Eq)]
pub enum Asking {
    Goes,
    Ends,
    Stops(CnfCode),
}

/// A word of an ask, in front of its 0.
pub fn word_of_ask(taken: &mut Taken, alloc: Global, word: &[u8]) -> Result<Asking, AllocError>
    ensures { IfOk result (λ asking. GivesAsk asking (number_in word.now) taken.old taken.new) }
{
    match word_number(word) {
        Err(code) => Ok(Asking::Stops(code)),
        Ok(0) => {
            close_ask(taken, alloc)?;
            Ok(Asking::Ends)
        }
        Ok(z) => {
            if taken.begun.len() >= MAX_ASSUMPTIONS {
                return Ok(Asking::Stops(CnfCode::Limit));
            }
            begin_literal(taken, z)?;
            Ok(Asking::Goes)
        }
    }
}
