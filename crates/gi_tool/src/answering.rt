// From the words to the ending.
ghost use Rattle.std.specs.Prelude.{◌≡◌, Option, IfOk, IfSome};
ghost use Rattle.gi_room.specs.Seen.{Seen, new_pass};
ghost use Rattle.gi_run.specs.Kept.{IsNew};
ghost use Rattle.gi_run.specs.Starting.{Starts};

use gi_command::Words;
use gi_outside::Link;
use gi_room::{Gate, Pass, Room};
use gi_run::{Ending, start};
use std::alloc::{AllocError, Global};
use std::sync::Wait;
use std::thread::Threads;

/// Does what the words ask for, on a new machine where one can be opened.
pub fn answer<R: Threads + Wait + Sync, L: Link, G: Gate + Sync>(
    rt: &R,
    alloc: Global,
    words: &Words,
    user: &mut L,
    gate: &G,
) -> Ending
    ensures { (opened : Option Seen) × IfSome opened IsNew
        × Starts words.now opened (L.state user.old) (L.state user.new) result.status
        result.refusal }
{
    start(rt, alloc, words, open(alloc), user, gate)
}

// A new room, with its first pass.
fn open(alloc: Global) -> Result<(Room, Pass), AllocError>
    ensures first { IfOk result (λ room. room.1 ≡ new_pass room.0) }
    ensures of { IfOk result (λ room. room.1.place ≡ room.0) }
{
    Room::open(alloc)
}
