// Rooms for rows.
ghost use Rattle.std.specs.Prelude.{◌≡◌, IfOk};

use gi_room::{Pass, Room};
use std::alloc::{AllocError, Global};

/// A new room, and a pass of it with at most so many calls: the first pass of the room, or one that
/// comes of halving it again and again.
pub fn open_with(alloc: Global, calls: u64) -> Result<(Room, Pass), AllocError>
    ensures { IfOk result (λ opened. opened.1.place ≡ opened.0) }
{
    let (room, pass) = Room::open(alloc)?;
    let pass = halved(&room, pass, calls);
    Ok((room, pass))
}

fn halved(room: &Room, pass: Pass, calls: u64) -> Pass
    requires { pass.place ≡ room.now }
    ensures { result.place ≡ room.now }
{
    let mut pass = pass;
    for _ in 0..57_u32 {
        pass = halved_once(room, pass, calls);
    }
    pass
}

// Half of a pass that has more calls.
fn halved_once(room: &Room, pass: Pass, calls: u64) -> Pass
    requires { pass.place ≡ room.now }
    ensures { result.place ≡ room.now }
{
    let mut pass = pass;
    if pass.calls_left() > calls {
        return room.split(&mut pass);
    }
    pass
}
