// The next connection.
ghost use Rattle.std.specs.Prelude.{◌≡◌, ◌<◌, IfSome};
ghost use Rattle.gi_doors.specs.DoorState.{DoorState};
ghost use Rattle.gi_doors.specs.Fresh.{IsFresh};
ghost use Rattle.gi_room.specs.Seen.{new_pass};
ghost use Rattle.gi_serve.specs.Turns.{HasTurned, IsOut, ServesOne};

use crate::closing::print_closed;
use crate::{ServeEnd, Shelf};
use gi_doors::{Came, Door};
use gi_host::{SessionEnd, host_one, too_much_is_a_quarter};
use gi_net::How;
use gi_outside::{Link, Sent};
use gi_room::{Gate, Pass, Room};
use std::alloc::Global;
use std::sync::Wait;
use std::thread::Threads;

/// Serves a link on the first pass of a room, puts the pass that comes back on the shelf, and then
/// hangs the link up.
fn serve_in<R: Threads + Wait + Sync, D: Door, G: Gate + Sync, S: Shelf>(
    rt: &R,
    alloc: Global,
    room: &Room,
    pass: Pass,
    link: D::L,
    door: &mut D,
    gate: &G,
    shelf: &mut S,
    quiet: bool,
) -> How
    requires first { pass ≡ new_pass room.now }
    requires fresh { IsFresh (D.L.state link) }
    requires out { IfSome (D.state door.old).out (λ links. 0 < links) }
    ensures { (before : DoorState D.L) → IsOut before (D.state door.old)
        → ServesOne D.L.state quiet result before (D.state door.new) (S.state shelf.old)
        (S.state shelf.new) }
{
    too_much_is_a_quarter();
    let mut served = link;
    let SessionEnd { how, pass } = host_one(rt, alloc, room, pass, &mut served, gate, quiet);
    shelf.put(pass);
    door.hang_up(served);
    how
}

/// Serves a link on a room of its own, and then prints its line. Where no room can be opened, the
/// link is hung up unserved.
fn serve_link<R: Threads + Wait + Sync, D: Door, U: Link, G: Gate + Sync, S: Shelf>(
    rt: &R,
    alloc: Global,
    link: D::L,
    door: &mut D,
    user: &mut U,
    gate: &G,
    shelf: &mut S,
    quiet: bool,
    number: u32,
) -> Option<ServeEnd>
    requires fresh { IsFresh (D.L.state link) }
    requires out { IfSome (D.state door.old).out (λ links. 0 < links) }
    ensures { (before : DoorState D.L) → IsOut before (D.state door.old)
        → HasTurned D.L.state quiet number result before (D.state door.new) (U.state user.old)
        (U.state user.new) (S.state shelf.old) (S.state shelf.new) }
{
    match Room::open(alloc) {
        Ok((room, pass)) => {
            let how = serve_in(rt, alloc, &room, pass, link, door, gate, shelf, quiet);
            match print_closed(number, how, user) {
                Sent::Done => None,
                Sent::Failed => Some(ServeEnd::WriteFault),
            }
        }
        Err(_) => {
            door.hang_up(link);
            Some(ServeEnd::NoMemory)
        }
    }
}

/// Waits for the next connection, whose line has this number, and serves it. `None`: the server
/// goes on.
pub fn serve_next<R: Threads + Wait + Sync, D: Door, U: Link, G: Gate + Sync, S: Shelf>(
    rt: &R,
    alloc: Global,
    door: &mut D,
    user: &mut U,
    gate: &G,
    shelf: &mut S,
    quiet: bool,
    number: u32,
) -> Option<ServeEnd>
    ensures { HasTurned D.L.state quiet number result (D.state door.old) (D.state door.new)
        (U.state user.old) (U.state user.new) (S.state shelf.old) (S.state shelf.new) }
{
    match door.accept() {
        Came::Link(link) => { serve_link(rt, alloc, link, door, user, gate, shelf, quiet, number) }
        Came::Closed => Some(ServeEnd::Closed),
        Came::Failed => Some(ServeEnd::DoorFault),
    }
}
