// The simple command of which the words are read.
ghost use Rattle.std.specs.Prelude.{◌≡◌, IfOk, map, option_map};
ghost use Rattle.std.specs.String.{string_bytes};
ghost use Rattle.clap.specs.Words.{app_of, found_of, rows_of};
ghost use Rattle.gi_command.specs.Parsing.{program, rows_read};

use clap::error::ErrorKind;
use clap::{Arg, ArgAction, ArgMatches, Command};
use std::alloc::{AllocError, Global};

/// The simple command: words, the flag `-q`, and the option `--budget` with a value. It has no help
/// of its own.
fn simple_command<'a>(alloc: Global) -> Result<Command<'a>, AllocError>
    ensures { IfOk result (λ made. app_of made ≡ program) }
{
    let words = Arg::new(alloc, "words").action(ArgAction::Append);
    let quiet = Arg::new(alloc, "quiet")
        .short('q')
        .action(ArgAction::SetTrue);
    let budget = Arg::new(alloc, "budget")
        .long("budget")
        .action(ArgAction::Set);
    Command::new(alloc, "gi_tool")
        .no_binary_name(true)
        .disable_help_flag(true)
        .arg(words)?
        .arg(quiet)?
        .arg(budget)
}

/// What was found of the simple command in the words, if they are read as it.
pub fn parse<'a>(alloc: Global, words: &'a [String]) -> Result<Option<ArgMatches<'a>>, AllocError>
    ensures { IfOk result (λ found. option_map (λ matches. rows_of (found_of matches)) found
        ≡ rows_read (map (λ word. string_bytes word) words.entry.now)) }
{
    match simple_command(alloc)?.try_get_matches_from(words) {
        Ok(matches) => Ok(Some(matches)),
        Err(error) => match error.kind() {
            ErrorKind::OutOfMemory => Err(AllocError),
            _ => Ok(None),
        },
    }
}
