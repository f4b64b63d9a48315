// The words of the command line.
ghost use Rattle.std.specs.Prelude.{◌≡◌, ◌≢◌};
ghost use Rattle.std.specs.IoError.{error_kind};
ghost use Rattle.gi_command.specs.declared.words.Words.TheVariants.{NoMemory, NotText};

use std::alloc::Global;
use std::io::ErrorKind;
use std::{env, io};

/// The words of the command line.
#[derive(Drop)]
pub enum Words {
    /// All of them.
    Taken(Vec<String>),
    /// One isn't UTF-8.
    NotText,
    /// Memory was wanting.
    NoMemory,
}

/// The words of the command line, without the program's name.
pub fn take_words(rt: &HostRuntime, alloc: Global) -> Words {
    match try_words(rt, alloc) {
        Ok(words) => Words::Taken(words),
        Err(error) => without_words(&error),
    }
}

fn try_words(rt: &HostRuntime, alloc: Global) -> io::Result<Vec<String>> {
    let mut words = Vec::new(alloc);
    for word in env::args(rt)?.skip(1) {
        words.push(word)?;
    }
    Ok(words)
}

// What it is where the words can't be taken: by its kind, a word that isn't UTF-8 (`InvalidData`),
// or want of memory.
fn without_words(error: &io::Error) -> Words
    ensures text { error_kind error.now ≡ ErrorKind.InvalidData → result ≡ NotText }
    ensures memory { error_kind error.now ≢ ErrorKind.InvalidData → result ≡ NoMemory }
{
    match error.kind() {
        ErrorKind::InvalidData => Words::NotText,
        _ => Words::NoMemory,
    }
}
