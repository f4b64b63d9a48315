// A row, run and printed.
use crate::opening::open_with;
use crate::row::Row;
use crate::running::{run_behind, run_in};
use crate::user::user_of;
use crate::words::parted;
use gi_command::Words;
use gi_outside::MemoryLink;
use gi_run::{Ending, telling_of};
use std::alloc::{AllocError, Global};
use std::sync::Wait;
use std::thread::Threads;
use std::{io, str};

/// Runs a row. Prints its name, what it writes, its status, and what people are told.
pub fn print_row<R: Threads + Wait + Sync>(
    rt: &HostRuntime,
    threads: &R,
    row: &Row<'_>,
) -> io::Result<()> {
    println!(rt; "# {}", row.name)?;
    let words = parted(rt.alloc(), row.words)?;
    let ending = print_run(rt, threads, row, words.as_slice())?;
    print_ending(rt, &Words::Taken(words), ending)
}

// Runs words over the link of a row, and prints what they write.
fn print_run<R: Threads + Wait + Sync>(
    rt: &HostRuntime,
    threads: &R,
    row: &Row<'_>,
    words: &[String],
) -> io::Result<Ending> {
    let mut user = user_of(rt.alloc(), row)?;
    let ending = play(threads, rt.alloc(), row, words, &mut user)?;
    print_text(rt, user.written())?;
    Ok(ending)
}

fn print_text(rt: &HostRuntime, bytes: &[u8]) -> io::Result<()> {
    print!(rt; "{}", str::from_utf8(bytes).unwrap_or("no text\n"))
}

fn print_ending(rt: &HostRuntime, words: &Words, ending: Ending) -> io::Result<()> {
    let telling = telling_of(words, ending);
    println!(rt; "= {}", ending.status)?;
    if !telling.fault.is_empty() {
        println!(rt; "= {}", telling.fault)?;
    }
    if let Some((line, meaning)) = telling.meaning {
        println!(rt; "= line {line}: {meaning}")?;
    }
    if let Some(usage) = telling.usage {
        println!(rt; "= {usage}")?;
    }
    Ok(())
}

// Runs words in the room of a row.
fn play<R: Threads + Wait + Sync>(
    rt: &R,
    alloc: Global,
    row: &Row<'_>,
    words: &[String],
    user: &mut MemoryLink,
) -> Result<Ending, AllocError> {
    let calls = row.setting.calls;
    if row.setting.sessions == 0 {
        run_in(rt, alloc, words, open_with(alloc, calls), user)
    } else {
        run_behind(rt, alloc, calls, words, user)
    }
}
