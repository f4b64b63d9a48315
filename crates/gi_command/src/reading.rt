// The command that words are.
ghost use Rattle.std.specs.Prelude.{◌≡◌, ◌≤◌, map, option_map, IfOk, IfSome};
ghost use Rattle.std.specs.String.{string_bytes};
ghost use Rattle.clap.specs.Words.{found_of, rows_of};
ghost use Rattle.gi_command.specs.Words.{command_at, command_in, command_of, form_at, number_in};
ghost use Rattle.gi_command.specs.Words.{one_word, quiet_in, two_at, two_words, with_budget};
ghost use Rattle.gi_command.specs.Ranges.{IsInRange};

use crate::command::Command;
use crate::parsing::parse;
use clap::ArgMatches;
use gi_files::Form;
use gi_text::{Number, read_number};
use std::alloc::{AllocError, Global};

/// The command that the words are, if they are one. They are read by `clap` as words, the flag `-q`
/// and the option `--budget`, in any order; what was read is a command exactly where it is a line
/// of the table of commands.
pub fn read_words(alloc: Global, words: &[String]) -> Result<Option<Command>, AllocError>
    ensures command { IfOk result
        (λ command. command ≡ command_of (map (λ word. string_bytes word) words.now)) }
    ensures range { IfOk result (λ command. IfSome command IsInRange) }
{
    match parse(alloc, words)? {
        Some(matches) => Ok(command_found(&matches)),
        None => Ok(None),
    }
}

// The command of what was found.
fn command_found(matches: &ArgMatches) -> Option<Command>
    ensures command { result ≡ command_in (rows_of (found_of matches.now)) }
    ensures range { IfSome result IsInRange }
{
    let words = matches.get_raw("words")?;
    line_of(words, is_quiet(matches), matches.get_str("budget"))
}

// Whether `-q` was among the words.
fn is_quiet(matches: &ArgMatches) -> bool
    ensures { result ≡ quiet_in (rows_of (found_of matches.now)) }
{
    match matches.get_str("quiet") {
        Some(text) => text.as_bytes() == b"true".as_slice(),
        None => false,
    }
}

// The command of words, with `-q` or without it, and with the value of `--budget`.
fn line_of(words: &[&str], quiet: bool, budget: Option<&str>) -> Option<Command>
    ensures command { result ≡ command_at (map (λ word. word.now) words.now) quiet
        (option_map (λ value. value.now) budget.entry) }
    ensures range { IfSome result IsInRange }
{
    match words {
        [name] => read_one(name, quiet, budget),
        [name, word] => read_line(name, word, quiet, budget),
        _ => None,
    }
}

// A name alone, with `-q` or without it.
#[tactic(auto, unfolding(crate::specs::Words::one_word))]
fn read_one(name: &str, quiet: bool, budget: Option<&str>) -> Option<Command>
    ensures command { result ≡ one_word name.now quiet
        (option_map (λ value. value.now) budget.entry) }
    ensures range { IfSome result IsInRange }
{
    match budget {
        Some(_) => None,
        None => (name.as_bytes() == b"run".as_slice()).then_some(Command::Run { quiet }),
    }
}

// A name with a word behind it, with `-q` or without it, and with the value of `--budget`.
fn read_line(name: &str, word: &str, quiet: bool, budget: Option<&str>) -> Option<Command>
    ensures command { result ≡ two_at name.now word.now quiet
        (option_map (λ value. value.now) budget.entry) }
    ensures range { IfSome result IsInRange }
{
    if quiet {
        return None;
    }
    match budget {
        Some(number) => read_budgeted(name, word, number),
        None => read_two(name.as_bytes(), word.as_bytes()),
    }
}

// A name with a word behind it.
#[tactic(auto, unfolding(crate::specs::Words::two_words))]
fn read_two(name: &[u8], word: &[u8]) -> Option<Command>
    ensures command { result ≡ two_words name.now word.now }
    ensures range { IfSome result IsInRange }
{
    if name == b"check".as_slice() {
        return Some(Command::Check(read_form(word)?));
    }
    if name == b"convert".as_slice() {
        return Some(Command::Convert(read_form(word)?));
    }
    if name == b"solve".as_slice() {
        return Some(Command::Solve {
            form: read_form(word)?,
            budget: u32::MAX,
        });
    }
    if name == b"drill".as_slice() {
        return Some(Command::Drill(read_rounds(word)?));
    }
    None
}

// `solve` with a form and a budget.
#[tactic(auto, unfolding(crate::specs::Words::with_budget))]
fn read_budgeted(name: &str, form: &str, number: &str) -> Option<Command>
    ensures command { result ≡ with_budget name.now form.now number.now }
    ensures range { IfSome result IsInRange }
{
    if name.as_bytes() != b"solve".as_slice() {
        return None;
    }
    Some(Command::Solve {
        form: read_form(form.as_bytes())?,
        budget: read_budget(number.as_bytes())?,
    })
}

// A budget: a number without a sign, from 1 up.
fn read_budget(word: &[u8]) -> Option<u32>
    ensures value { result ≡ number_in 1 4294967295 word.now }
    ensures least { IfSome result (λ n. 1 ≤ n) }
{
    match read_number(word) {
        Number::Value(n) if n >= 1 && n <= i64::from(u32::MAX) => Some(n as u32),
        _ => None,
    }
}

// A number of rounds: one without a sign, up to 10,000.
fn read_rounds(word: &[u8]) -> Option<u32>
    ensures value { result ≡ number_in 0 10000 word.now }
    ensures most { IfSome result (λ n. n ≤ 10000) }
{
    match read_number(word) {
        Number::Value(n) if n >= 0 && n <= 10_000 => Some(n as u32),
        _ => None,
    }
}

// The name of a form.
#[tactic(auto, unfolding(crate::specs::Words::form_at))]
fn read_form(word: &[u8]) -> Option<Form>
    ensures { result ≡ form_at word.now }
{
    if word == b"cnf".as_slice() {
        return Some(Form::Cnf);
    }
    if word == b"icnf".as_slice() {
        return Some(Form::Icnf);
    }
    None
}
