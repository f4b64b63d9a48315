// From the words to the status.
ghost use Rattle.std.specs.Prelude.{◌≡◌, None, IfOk, map, option_map};
ghost use Rattle.std.specs.Result.{result_ok};
ghost use Rattle.std.specs.String.{string_bytes};
ghost use Rattle.gi_command.specs.Pages.{page_asked};
ghost use Rattle.gi_run.specs.Starting.{Begins, Starts};

use crate::running::run;
use gi_command::{Words, page_asked, print_page};
use gi_dimacs::CnfFault;
use gi_outside::Link;
use gi_room::{Gate, Pass, Room};
use std::alloc::{AllocError, Global};
use std::sync::Wait;
use std::thread::Threads;

/// How the program ends: its exit status, and the fault of an input that was refused.
#[derive(Clone, Copy, Debug, PartialEq, Eq)]
pub struct Ending {
    pub status: u8,
    pub refusal: Option<CnfFault>,
}

/// Does what the words ask for: prints a page about the program, or runs the command on the pass
/// that was opened.
///
/// The status is 0 behind a page, or 5 where a write failed; 2 where a word isn't UTF-8; 3 where
/// memory was wanting for the words, or where no room could be opened; and else that of `run`.
pub fn start<R: Threads + Wait + Sync, L: Link, G: Gate + Sync>(
    rt: &R,
    alloc: Global,
    words: &Words,
    opened: Result<(Room, Pass), AllocError>,
    user: &mut L,
    gate: &G,
) -> Ending
    requires of { IfOk opened (λ room. room.1.place ≡ room.0) }
    ensures { Starts words.now (option_map (λ room. room.1) (result_ok opened)) (L.state user.old)
        (L.state user.new)
        result.status result.refusal }
{
    match words {
        Words::Taken(words) => begin(rt, alloc, words.as_slice(), opened, user, gate),
        Words::NotText => end_without(opened, 2),
        Words::NoMemory => end_without(opened, 3),
    }
}

// Ends with a status and without a refusal, and lets go of what was opened.
fn end_without(opened: Result<(Room, Pass), AllocError>, status: u8) -> Ending
    ensures { result ≡ record { status = status; refusal = None } }
{
    let_all_go(opened);
    end_with(status)
}

// Lets go of a room and its pass. What they own is let go of here alone, since the proof of that is
// long.
fn let_all_go(_opened: Result<(Room, Pass), AllocError>) {}

// Lets go of a pass.
fn let_go(_pass: Pass) {}

// Ends with a status, and without a refusal.
fn end_with(status: u8) -> Ending
    ensures { result ≡ record { status = status; refusal = None } }
{
    Ending {
        status,
        refusal: None,
    }
}

// Answers words that were taken.
fn begin<R: Threads + Wait + Sync, L: Link, G: Gate + Sync>(
    rt: &R,
    alloc: Global,
    words: &[String],
    opened: Result<(Room, Pass), AllocError>,
    user: &mut L,
    gate: &G,
) -> Ending
    requires of { IfOk opened (λ room. room.1.place ≡ room.0) }
    ensures { Begins (page_asked (map (λ word. string_bytes word) words.now))
        (map (λ word. string_bytes word) words.now)
        (option_map (λ room. room.1) (result_ok opened)) (L.state user.old) (L.state user.new) result.status result.refusal }
{
    match page_asked(words) {
        Some(page) => end_without(opened, print_page(page, user)),
        None => run_opened(rt, alloc, words, opened, user, gate),
    }
}

// Runs words on the pass that was opened.
fn run_opened<R: Threads + Wait + Sync, L: Link, G: Gate + Sync>(
    rt: &R,
    alloc: Global,
    words: &[String],
    opened: Result<(Room, Pass), AllocError>,
    user: &mut L,
    gate: &G,
) -> Ending
    requires of { IfOk opened (λ room. room.1.place ≡ room.0) }
    ensures { Begins None (map (λ word. string_bytes word) words.now)
        (option_map (λ room. room.1) (result_ok opened))
        (L.state user.old) (L.state user.new) result.status result.refusal }
{
    match opened {
        Ok((room, pass)) => {
            let outcome = run(rt, alloc, words, &room, pass, user, gate);
            let_go(outcome.pass);
            Ending {
                status: outcome.status,
                refusal: outcome.refusal,
            }
        }
        Err(_) => end_with(3),
    }
}
