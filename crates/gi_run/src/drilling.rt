// The drill, served on a pass.
ghost use Rattle.std.specs.Prelude.{◌≡◌, ◌≢◌, ◌≤◌, [], true, IfSome};
ghost use Rattle.gi_run.specs.Drilling.{HasDrilled, ServesCounted, TellsDrill, drilled_status};

use gi_drill::{
    CountedSession, Tally, calls_alone_are_counted, plan_satisfies, print_tally, script_is_read,
    script_is_short, script_is_taken, serve_counted, write_script,
};
use gi_host::{Visitor, shut_behind, too_much_is_a_quarter};
use gi_net::{How, allowed_is_reply};
use gi_outside::{Link, MemoryLink, Sent};
use gi_room::{Pass, Room};
use gi_wire::items_stay;
use std::alloc::Global;
use std::sync::Wait;

/// How a drill ends.
#[derive(Clone, Copy, Debug, PartialEq, Eq)]
pub enum Drilled {
    /// The session ended by its `bye`, and what was counted was printed.
    Done,
    /// It did, and a write of what was counted failed.
    Cut,
    /// Memory was wanting: for the script, and then nothing was called, for the tape of its link,
    /// or for the session. Nothing was printed.
    NoMemory,
    /// No call was left for a line. Nothing was printed.
    TooMuch,
    /// The machine is over: a call was refused for good. Nothing was printed.
    Dead,
}

/// How a session ended, what is counted of the answers to its calls, and its pass.
#[derive(Drop)]
struct Played {
    how: How,
    tally: Tally,
    pass: Pass,
}

/// Serves the script of so many rounds on the pass, over a link in memory, and prints what is
/// counted of the answers.
pub fn drill<R: Wait, L: Link>(
    rt: &R,
    alloc: Global,
    rounds: u32,
    room: &Room,
    pass: Pass,
    user: &mut L,
) -> (Drilled, Pass)
    requires of { pass.place ≡ room.now }
    requires few { rounds ≤ 10000 }
    ensures { HasDrilled result.0 rounds (L.state user.old) (L.state user.new) pass result.1 }
{
    pass.knows();
    plan_satisfies();
    script_is_read();
    script_is_short();
    script_is_taken();
    calls_alone_are_counted();
    items_stay();
    allowed_is_reply();
    too_much_is_a_quarter();
    let Ok(script) = write_script(alloc, rounds) else {
        return (Drilled::NoMemory, pass);
    };
    let (cuts, reads, writes) = (Vec::new(alloc), Vec::new(alloc), Vec::new(alloc));
    let mut link = MemoryLink::new(alloc, script, cuts, reads, writes);
    let Played { how, tally, pass } = play(rt, alloc, room, pass, &mut link);
    let drilled = tell(how, rounds, &tally, user);
    (drilled, pass)
}

/// Serves a link on the pass and counts the answers to its calls. Then shuts the machine where a
/// call is left.
fn play<R: Wait, L: Link>(rt: &R, alloc: Global, room: &Room, pass: Pass, link: &mut L) -> Played
    requires of { pass.place ≡ room.now }
    ensures counted { ServesCounted (L.state link.old) (L.state link.new) pass result.pass
        result.how
        result.tally }
    ensures empty { (L.state link.new).ended ≡ true
        → IfSome (L.state link.new).rest (λ bytes. bytes ≡ []) }
{
    let visitor = Visitor::new(rt, room, pass);
    let CountedSession { how, caller, tally } = serve_counted(alloc, visitor, link);
    let mut pass = caller.leave();
    pass.knows();
    shut_behind(rt, room, &mut pass);
    pass.knows();
    Played { how, tally, pass }
}

/// Prints what is counted of a session's answers where it ended by its `bye`.
fn tell<L: Link>(how: How, rounds: u32, tally: &Tally, user: &mut L) -> Drilled
    ensures { TellsDrill how result rounds (L.state user.old) (L.state user.new) tally.now }
{
    match how {
        How::Bye => match print_tally(rounds, tally, user) {
            Sent::Done => Drilled::Done,
            Sent::Failed => Drilled::Cut,
        },
        How::NoMemory | How::ReadFault | How::WriteFault => Drilled::NoMemory,
        How::TooMuch => Drilled::TooMuch,
        How::Dead | How::Eof => Drilled::Dead,
    }
}

/// The exit status of a drill that ended so: 0 where what was counted was printed, 5 where a write
/// of it failed, 3 for want of memory, 8 where no call was left, 9 where the machine is over.
pub fn status_of_drill(drilled: Drilled) -> u8
    ensures value { result ≡ drilled_status drilled }
    ensures not_two { result ≢ 2 }
{
    match drilled {
        Drilled::Done => 0,
        Drilled::NoMemory => 3,
        Drilled::Cut => 5,
        Drilled::TooMuch => 8,
        Drilled::Dead => 9,
    }
}
