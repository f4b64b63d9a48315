// A session on a pass, and what comes behind it.
ghost use Rattle.std.specs.Prelude.{◌≡◌, true, All, drop, length};
ghost use Rattle.gi_room.specs.Calls.{Sole};
ghost use Rattle.gi_run.specs.Outcome.{HasHosted};

use gi_host::{SessionEnd, host_one, too_much_is_a_quarter};
use gi_outside::Link;
use gi_room::{Gate, Pass, Room};
use std::alloc::Global;
use std::sync::Wait;
use std::thread::Threads;

/// Serves one session on the pass, and then shuts the machine where a call is left. Unless it is to
/// be quiet, a worker works beside the session on its solves.
pub fn host<R: Threads + Wait + Sync, L: Link, G: Gate + Sync>(
    rt: &R,
    alloc: Global,
    room: &Room,
    pass: Pass,
    user: &mut L,
    gate: &G,
    quiet: bool,
) -> SessionEnd
    requires of { pass.place ≡ room.now }
    ensures has { HasHosted (L.state user.old) (L.state user.new) pass result.pass result.how }
    ensures own { quiet ≡ true → Sole pass
        → All (λ e. e.by ≡ pass.number) (drop (length pass.history) result.pass.history) }
{
    too_much_is_a_quarter();
    host_one(rt, alloc, room, pass, user, gate, quiet)
}
