// Calls, read from lines.
ghost use Rattle.std.specs.Prelude.{◌≡◌, ◌≤◌, ◌∷◌, [], true, IfOk, IfSome, OnErr, option_map};
ghost use Rattle.gi_model.specs.Fits.{fits};
ghost use Rattle.gi_model.specs.Limits.{most_payload};
ghost use Rattle.gi_text.specs.Numbers.{number_of};
ghost use Rattle.gi_text.specs.Words.{words_of};
ghost use Rattle.gi_wire.specs.CallRead.{ReadsCall};
ghost use Rattle.gi_wire.specs.Grammar.{Loads, call_alone, call_of, call_with, count_at, guard_at, behind_name, guards_at, has_list, is_zero, list_at, literal_at, load_of, load_with, short_call, under_guards, under_of, under_one};

use gi_lit::{Guards, Lit, Lits, MAX_VAR, Var};
use gi_model::{Call, MAX_PAYLOAD};
use gi_text::{Number, Words, read_number};
use std::alloc::{AllocError, Global};

// The most bytes that a load has.
const MOST_LOADED: u32 = MAX_PAYLOAD as u32;

/// What the bytes of a load are.
#[derive(Clone, Copy, Debug, PartialEq, Eq)]
pub enum Kind {
    /// A DIMACS CNF file.
    Cnf,
}

// A load whose bytes follow its line.
#[derive(Clone, Copy)]
pub struct Load {
    pub kind: Kind,
    pub len: u32,
}

/// What a line asks for.
#[derive(Drop)]
pub enum CallRead {
    Call(Call),
    /// A call with the `len` bytes behind the line's LF, at most `MAX_PAYLOAD`.
    Load { kind: Kind, len: u32 },
    /// The line isn't in the grammar.
    Syntax,
    /// There was no memory for the call's lists of guards and literals.
    NoMemory,
}

/// The call or load that a line asks for, by its words: white bytes before, between and after them
/// don't matter. `Syntax` comes exactly where the grammar doesn't have the line, but for want of
/// memory, which only a line takes whose first word is `add`, `assume` or `under`.
#[tactic(auto, unfolding(crate::specs::Grammar::ask_of))]
pub fn read_call(alloc: Global, line: &[u8]) -> CallRead
    ensures { ReadsCall result (words_of line.now) }
{
    let mut words = Words::new(line);
    match words.next() {
        None => CallRead::Syntax,
        Some(name) => {
            if name == b"load".as_slice() {
                return match read_load(words) {
                    Some(Load { kind, len }) => CallRead::Load { kind, len },
                    None => CallRead::Syntax,
                };
            }
            match read_named(alloc, name, words, line) {
                Ok(Some(call)) => CallRead::Call(call),
                Ok(None) => CallRead::Syntax,
                Err(_) => CallRead::NoMemory,
            }
        }
    }
}

// A load, by the words behind its name.
fn read_load(mut words: Words) -> Option<Load>
    ensures load { option_map (λ l. Loads l.kind l.len) result ≡ load_of words.entry }
    ensures size { IfSome result (λ l. l.len ≤ most_payload) }
{
    match words.next() {
        None => None,
        Some(kind) => match words.next() {
            None => None,
            Some(len) => match words.next() {
                None => read_load_with(kind, len),
                Some(_) => None,
            },
        },
    }
}

// A load, by its kind and its length.
#[tactic(auto, unfolding(crate::specs::Grammar::load_with))]
fn read_load_with(kind: &[u8], len: &[u8]) -> Option<Load>
    ensures load { option_map (λ l. Loads l.kind l.len) result ≡ load_with kind.now len.now }
    ensures size { IfSome result (λ l. l.len ≤ most_payload) }
{
    if kind != b"cnf".as_slice() {
        return None;
    }
    match read_count(len, 0, MOST_LOADED) {
        Some(len) => Some(Load {
            kind: Kind::Cnf,
            len,
        }),
        None => None,
    }
}

// The call of this name, with these words behind it in the line.
#[tactic(auto, unfolding(crate::specs::Grammar::call_of, crate::specs::Grammar::has_list))]
fn read_named(
    alloc: Global,
    name: &[u8],
    words: Words,
    line: &[u8],
) -> Result<Option<Call>, AllocError>
    requires { words_of line.now ≡ name.now ∷ words }
    ensures call { IfOk result (λ call. call ≡ call_of (name.now ∷ words.entry)) }
    ensures fits { IfOk result (λ call. IfSome call (λ c. fits c ≡ true)) }
    ensures list { OnErr result (has_list (name.now ∷ words.entry) ≡ true) }
{
    if name == b"add".as_slice() {
        return Ok(read_list(alloc, words)?.map(Call::Add));
    }
    if name == b"assume".as_slice() {
        return Ok(read_list(alloc, words)?.map(Call::Assume));
    }
    if name == b"under".as_slice() {
        return read_under(alloc, line);
    }
    Ok(read_short(name, words))
}

// A clause under guards, by the whole line: one guard and a list, or a list of guards and a list.
fn read_under(alloc: Global, line: &[u8]) -> Result<Option<Call>, AllocError>
    ensures call { IfOk result (λ call. call ≡ under_of (behind_name (words_of line.now))) }
    ensures fits { IfOk result (λ call. IfSome call (λ c. fits c ≡ true)) }
{
    match read_under_one(alloc, skip_name(line))? {
        Some(call) => Ok(Some(call)),
        None => read_under_guards(alloc, skip_name(line)),
    }
}

// The words of a line behind its first.
fn skip_name(line: &[u8]) -> Words
    ensures { result ≡ behind_name (words_of line.now) }
{
    let mut words = Words::new(line);
    let _name = words.next();
    words
}

// One guard, and a list of literals.
fn read_under_one(alloc: Global, mut words: Words) -> Result<Option<Call>, AllocError>
    ensures call { IfOk result (λ call. call ≡ under_one words.entry) }
    ensures fits { IfOk result (λ call. IfSome call (λ c. fits c ≡ true)) }
{
    match words.next() {
        None => Ok(None),
        Some(word) => match read_guard(word) {
            None => Ok(None),
            Some(guard) => match read_list(alloc, words)? {
                None => Ok(None),
                Some(clause) => Ok(Some(Call::Under(only(alloc, guard)?, clause))),
            },
        },
    }
}

// The list of one guard.
fn only(alloc: Global, guard: Var) -> Result<Guards, AllocError>
    ensures { IfOk result (λ gs. gs ≡ guard ∷ []) }
{
    let mut guards = Guards::new(alloc);
    guards.push(guard)?;
    Ok(guards)
}

// A list of guards, one at least, and a list of literals.
fn read_under_guards(alloc: Global, mut words: Words) -> Result<Option<Call>, AllocError>
    ensures call { IfOk result (λ call. call ≡ under_guards (guards_at words.entry)) }
    ensures fits { IfOk result (λ call. IfSome call (λ c. fits c ≡ true)) }
{
    match read_guards(alloc, &mut words)? {
        None => Ok(None),
        Some(guards) => {
            if guards.is_empty() {
                return Ok(None);
            }
            match read_list(alloc, words)? {
                None => Ok(None),
                Some(clause) => Ok(Some(Call::Under(guards, clause))),
            }
        }
    }
}

// Guards up to a word 0, which is taken too.
#[tactic(auto, unfolding(crate::specs::Grammar::guards_at))]
fn read_guards(alloc: Global, words: &mut Words) -> Result<Option<Guards>, AllocError>
    ensures { IfOk result (λ read. option_map (λ gs. (gs, words.new)) read ≡ guards_at words.old) }
{
    let mut guards = Guards::new(alloc);
    'words: while let Some(word) = words.next() {
        if is_end(word) {
            return Ok(Some(guards));
        }
        match read_guard(word) {
            Some(guard) => guards.push(guard)?,
            None => return Ok(None),
        }
    }
    Ok(None)
}

// Literals, and then a 0 as the last word.
#[tactic(auto, unfolding(crate::specs::Grammar::list_at))]
fn read_list(alloc: Global, mut words: Words) -> Result<Option<Lits>, AllocError>
    ensures { IfOk result (λ list. list ≡ list_at words.entry) }
{
    let mut list = Lits::new(alloc);
    'words: while let Some(word) = words.next() {
        if is_end(word) {
            return Ok(match words.next() {
                None => Some(list),
                Some(_) => None,
            });
        }
        match read_literal(word) {
            Some(literal) => list.push(literal)?,
            None => return Ok(None),
        }
    }
    Ok(None)
}

// A call with at most one word behind its name.
fn read_short(name: &[u8], mut words: Words) -> Option<Call>
    ensures call { result ≡ short_call name.now words.entry }
    ensures fits { IfSome result (λ c. fits c ≡ true) }
{
    match words.next() {
        None => read_alone(name),
        Some(word) => match words.next() {
            None => read_with(name, word),
            Some(_) => None,
        },
    }
}

// A call that is its name alone.
#[tactic(auto, unfolding(crate::specs::Grammar::call_alone))]
fn read_alone(name: &[u8]) -> Option<Call>
    ensures call { result ≡ call_alone name.now }
    ensures fits { IfSome result (λ c. fits c ≡ true) }
{
    if name == b"solve".as_slice() {
        return Some(Call::Solve(u32::MAX));
    }
    if name == b"wait".as_slice() {
        return Some(Call::Wait);
    }
    if name == b"model".as_slice() {
        return Some(Call::Model);
    }
    if name == b"poll".as_slice() {
        return Some(Call::Poll);
    }
    if name == b"pause".as_slice() {
        return Some(Call::Pause);
    }
    if name == b"resume".as_slice() {
        return Some(Call::Resume);
    }
    if name == b"stop".as_slice() {
        return Some(Call::Stop);
    }
    if name == b"test".as_slice() {
        return Some(Call::Test);
    }
    if name == b"untest".as_slice() {
        return Some(Call::Untest);
    }
    if name == b"guard".as_slice() {
        return Some(Call::NewGuard);
    }
    if name == b"known".as_slice() {
        return Some(Call::Known);
    }
    if name == b"bye".as_slice() {
        return Some(Call::Bye);
    }
    None
}

// A call with one number.
#[tactic(auto, unfolding(crate::specs::Grammar::call_with))]
fn read_with(name: &[u8], word: &[u8]) -> Option<Call>
    ensures call { result ≡ call_with name.now word.now }
    ensures fits { IfSome result (λ c. fits c ≡ true) }
{
    if name == b"vars".as_slice() {
        return Some(Call::Vars(read_count(word, 0, MAX_VAR)?));
    }
    if name == b"drop".as_slice() {
        return Some(Call::DropGuard(read_guard(word)?));
    }
    if name == b"reasons".as_slice() {
        return Some(Call::Reasons(read_literal(word)?));
    }
    if name == b"solve".as_slice() {
        return Some(Call::Solve(read_count(word, 1, u32::MAX)?));
    }
    if name == b"clause".as_slice() {
        return Some(Call::KnownClause(read_count(word, 1, u32::MAX)?));
    }
    None
}

// A number without a sign, within these bounds.
fn read_count(word: &[u8], least: u32, most: u32) -> Option<u32>
    ensures value { result ≡ count_at least most word.now }
    ensures bounds { IfSome result (λ n. (least ≤ n) × (n ≤ most)) }
{
    match read_number(word) {
        Number::Value(n) if n >= i64::from(least) && n <= i64::from(most) => Some(n as u32),
        _ => None,
    }
}

// Whether the word ends a list: the number 0, with any zeros in front.
fn is_end(word: &[u8]) -> bool
    ensures { result ≡ is_zero (number_of word.now) }
{
    matches!(read_number(word), Number::Value(0))
}

// A guard, by its variable.
fn read_guard(word: &[u8]) -> Option<Var>
    ensures { result ≡ guard_at word.now }
{
    Var::new(read_count(word, 1, MAX_VAR)?)
}

pub(crate) fn read_literal(word: &[u8]) -> Option<Lit>
    ensures { result ≡ literal_at word.now }
{
    match read_number(word) {
        Number::Value(n) if n.unsigned_abs() <= u64::from(MAX_VAR) => Lit::from_dimacs(n as i32),
        _ => None,
    }
}
