// Words, run in a room.
ghost use Rattle.std.specs.Prelude.{◌≡◌, IfOk};

use crate::opening::open_with;
use crate::user::plain_user;
use crate::words::parted;
use gi_outside::MemoryLink;
use gi_room::{OpenGate, Pass, Room};
use gi_run::{Ending, Outcome, run};
use gi_text::Bytes;
use std::alloc::{AllocError, Global};
use std::sync::Wait;
use std::thread::Threads;

/// Runs words in the room that was opened.
pub fn run_in<R: Threads + Wait + Sync>(
    rt: &R,
    alloc: Global,
    words: &[String],
    opened: Result<(Room, Pass), AllocError>,
    user: &mut MemoryLink,
) -> Result<Ending, AllocError>
    requires { IfOk opened (λ room. room.1.place ≡ room.0) }
{
    let (room, pass) = opened?;
    Ok(ending_of(run(rt, alloc, words, &room, pass, user, &OpenGate)))
}

// How it ended. What a pass owns is let go of here alone, since the proof of that is long.
fn ending_of(outcome: Outcome) -> Ending {
    Ending {
        status: outcome.status,
        refusal: outcome.refusal,
    }
}

/// Runs words in a room with so many calls, behind a session there that only took its leave.
pub fn run_behind<R: Threads + Wait + Sync>(
    rt: &R,
    alloc: Global,
    calls: u64,
    words: &[String],
    user: &mut MemoryLink,
) -> Result<Ending, AllocError> {
    let first = parted(alloc, " run")?;
    let mut leaving = plain_user(alloc, Bytes::of(alloc, b"bye\n")?);
    let (room, pass) = open_with(alloc, calls)?;
    let gate = OpenGate;
    let outcome = run(
        rt,
        alloc,
        first.as_slice(),
        &room,
        pass,
        &mut leaving,
        &gate,
    );
    run_in(rt, alloc, words, Ok((room, outcome.pass)), user)
}
