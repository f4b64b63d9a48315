// A session, and a worker beside it.
ghost use Rattle.std.specs.Prelude.{◌≡◌, true, Some, All, IfSome, IsSome, drop, length};
ghost use Rattle.gi_room.specs.Calls.{HelpEnds, OnlyHelps, Sole};
ghost use Rattle.gi_host.specs.Hosts.{Closes, Hosts, Shuts};

use crate::serving::{SessionEnd, serve_one};
use gi_model::Call;
use gi_outside::Link;
use gi_room::{Gate, Pass, Room, sole_again};
use std::alloc::Global;
use std::sync::Wait;
use std::thread::{Threads, join_mut};

/// The pass that a session is served on, and one that is kept back for the shut behind it.
#[derive(Drop)]
struct Passes {
    own: Pass,
    spare: Pass,
}

/// Makes one call more, to shut the machine, where one is left. So a worker that looks at the room
/// ends.
pub fn shut_behind<R: Wait>(rt: &R, room: &Room, pass: &mut Pass)
    requires of { pass.old.place ≡ room.now }
    ensures { Shuts pass.old pass.new }
{
    if pass.calls_left() == 0 {
        return;
    }
    drop(room.call(rt, pass, &Call::Shut));
}

/// One session, and the shut behind it, for which the pass that was kept back has a call if it ever
/// had one.
fn serve_and_shut<R: Wait, L: Link>(
    rt: &R,
    alloc: Global,
    room: &Room,
    passes: Passes,
    link: &mut L,
) -> SessionEnd
    requires of { (passes.own.place ≡ room.now) × (passes.spare.place ≡ room.now) }
    ensures { Closes (L.state link.old) (L.state link.new) passes.own passes.spare result.pass
        result.how }
{
    let Passes { own, spare } = passes;
    let SessionEnd { how, mut pass } = serve_one(rt, alloc, room, own, link);
    room.join(&mut pass, spare);
    shut_behind(rt, room, &mut pass);
    SessionEnd { how, pass }
}

/// The same with passes that come out of a slot.
fn serve_from<R: Wait, L: Link>(
    rt: &R,
    alloc: Global,
    room: &Room,
    slot: &mut Option<Passes>,
    link: &mut L,
) -> SessionEnd
    requires some { IsSome slot.old }
    requires of { IfSome slot.old (λ p. (p.own.place ≡ room.now) × (p.spare.place ≡ room.now)) }
    ensures { IfSome slot.old
        (λ p. Closes (L.state link.old) (L.state link.new) p.own p.spare result.pass result.how) }
{
    match slot.take() {
        Some(passes) => serve_and_shut(rt, alloc, room, passes, link),
        None => unreachable!(),
    }
}

/// The session in this thread, and the worker in one of its own, or behind the session where none
/// can be made.
fn serve_and_help<R: Threads + Wait + Sync, L: Link, G: Gate + Sync>(
    rt: &R,
    alloc: Global,
    room: &Room,
    slot: &mut Option<Passes>,
    worker: &mut Pass,
    link: &mut L,
    gate: &G,
) -> SessionEnd
    requires some { IsSome slot.old }
    requires of { IfSome slot.old (λ p. (p.own.place ≡ room.now) × (p.spare.place ≡ room.now)) }
    requires worker { worker.old.place ≡ room.now }
    ensures helps { OnlyHelps worker.old worker.new }
    ensures ends { HelpEnds worker.new }
    ensures closes { IfSome slot.old
        (λ p. Closes (L.state link.old) (L.state link.new) p.own p.spare result.pass result.how) }
{
    let ((), end) = join_mut(
        rt,
        &mut || room.help_until_shut(rt, worker, gate),
        &mut || serve_from(rt, alloc, room, slot, link),
    );
    end
}

/// Serves a session and then shuts the machine, with a worker beside it.
fn host_with_worker<R: Threads + Wait + Sync, L: Link, G: Gate + Sync>(
    rt: &R,
    alloc: Global,
    room: &Room,
    pass: Pass,
    link: &mut L,
    gate: &G,
) -> SessionEnd
    requires of { pass.place ≡ room.now }
    ensures { Hosts (L.state link.old) (L.state link.new) pass result.pass result.how }
{
    pass.knows();
    sole_again();
    let mut own = pass;
    let spare = room.split(&mut own);
    let mut worker = room.split(&mut own);
    let mut slot = Some(Passes { own, spare });
    let SessionEnd { how, mut pass } = serve_and_help(
        rt,
        alloc,
        room,
        &mut slot,
        &mut worker,
        link,
        gate,
    );
    room.join(&mut pass, worker);
    pass.knows();
    SessionEnd { how, pass }
}

/// Serves a session and then shuts the machine, with nobody beside it.
fn host_alone<R: Wait, L: Link>(
    rt: &R,
    alloc: Global,
    room: &Room,
    pass: Pass,
    link: &mut L,
) -> SessionEnd
    requires of { pass.place ≡ room.now }
    ensures hosts { Hosts (L.state link.old) (L.state link.new) pass result.pass result.how }
    ensures own { Sole pass → All (λ e. e.by ≡ pass.number)
        (drop (length pass.history) result.pass.history) }
{
    let SessionEnd { how, mut pass } = serve_one(rt, alloc, room, pass, link);
    shut_behind(rt, room, &mut pass);
    pass.knows();
    SessionEnd { how, pass }
}

/// Serves a link on a pass, and then shuts the machine where a call is left. Unless it is to be
/// quiet, a worker with a pass split off this one works beside the session on its solves, until it
/// sees that the machine is shut, or has no call left. Before the worker's pass one more is split
/// off, which is joined behind the session: so a worker that has a call left always meets a shut.
/// Where no thread can be made, the worker works behind the session. The pass that comes back has
/// taken in all that was split off. A sole pass that is hosted quietly makes all entries itself.
pub fn host_one<R: Threads + Wait + Sync, L: Link, G: Gate + Sync>(
    rt: &R,
    alloc: Global,
    room: &Room,
    pass: Pass,
    link: &mut L,
    gate: &G,
    quiet: bool,
) -> SessionEnd
    requires of { pass.place ≡ room.now }
    ensures hosts { Hosts (L.state link.old) (L.state link.new) pass result.pass result.how }
    ensures own { quiet ≡ true → Sole pass
        → All (λ e. e.by ≡ pass.number) (drop (length pass.history) result.pass.history) }
{
    if quiet {
        host_alone(rt, alloc, room, pass, link)
    } else {
        host_with_worker(rt, alloc, room, pass, link, gate)
    }
}
