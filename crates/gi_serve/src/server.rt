// The server.
ghost use Rattle.gi_serve.specs.HasServed.{HasServed};

use crate::connection::serve_next;
use crate::{ServeEnd, Shelf};
use gi_doors::Door;
use gi_outside::Link;
use gi_room::Gate;
use std::alloc::Global;
use std::sync::Wait;
use std::thread::Threads;

/// Serves the connections that come in at a door, one after the other, each on a room of its own,
/// and at most so many. Unless it is to be quiet, a worker works beside each session on its solves.
///
/// Once a session is over, its pass, which has the room's whole history, is put on the shelf, the
/// link is hung up, and then the line `closed K HOW` is printed on `user`: K is the number of the
/// connection, from 1, and HOW is `bye`, `eof`, `nomem`, `dead`, `read`, `write` or `much`.
///
/// `Done` comes after as many connections as were wanted, and `Closed` exactly where the door
/// answered so. `DoorFault` comes only where the door's count of faults rose, and `WriteFault` only
/// where the count of failed writes of `user` rose; then the last line lacks bytes, and no other.
/// Where no room can be opened for a link, that is hung up unserved, without a line, and the answer
/// is `NoMemory`. No other link is left without an account, and none is left out.
pub fn serve<R: Threads + Wait + Sync, D: Door, U: Link, G: Gate + Sync, S: Shelf>(
    rt: &R,
    alloc: Global,
    door: &mut D,
    user: &mut U,
    gate: &G,
    shelf: &mut S,
    quiet: bool,
    most: u32,
) -> ServeEnd
    ensures { HasServed D.L.state quiet most result (D.state door.old) (D.state door.new)
        (U.state user.old) (U.state user.new) (S.state shelf.old) (S.state shelf.new) }
{
    for k in 0..most {
        match serve_next(rt, alloc, door, user, gate, shelf, quiet, k + 1) {
            Some(end) => return end,
            None => {}
        }
    }
    ServeEnd::Done
}
