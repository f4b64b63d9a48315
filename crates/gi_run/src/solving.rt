// Files, solved on a pass.
ghost use Rattle.std.specs.Prelude.{◌≡◌, ◌≢◌, ◌≤◌};
ghost use Rattle.gi_run.specs.Solving.{HasSolved, solved_refusal, solved_status};

use gi_batch::{
    Solved, asks_are_written, calls_are_answered, failures_are_true, models_are_true, solve,
    unknown_is_spent,
};
use gi_dimacs::CnfFault;
use gi_files::Form;
use gi_host::Visitor;
use gi_net::allowed_is_reply;
use gi_outside::Link;
use gi_room::{Pass, Room};
use std::alloc::Global;
use std::sync::Wait;

/// Reads a file, and solves it by calls on the pass.
pub fn solve_file<R: Wait, L: Link>(
    rt: &R,
    alloc: Global,
    form: Form,
    budget: u32,
    room: &Room,
    pass: Pass,
    user: &mut L,
) -> (Solved, Pass)
    requires of { pass.place ≡ room.now }
    requires budget { 1 ≤ budget }
    ensures { HasSolved result.0 form budget (L.state user.old) (L.state user.new) pass result.1 }
{
    asks_are_written();
    calls_are_answered();
    models_are_true();
    failures_are_true();
    unknown_is_spent();
    allowed_is_reply();
    let mut visitor = Visitor::new(rt, room, pass);
    let solved = solve(alloc, form, budget, &mut visitor, user);
    let pass = visitor.leave();
    pass.knows();
    (solved, pass)
}
/// The exit status of solves that ended so: by the last answer 10, 20 or 0, where there was none 0,
/// 1 where the input was refused, 3 for want of memory or a call that was denied, 4 and 5 for a
/// read and a write that failed, 8 where no call was left or too many bytes came.
pub fn status_of_solves(solved: Solved) -> u8
    ensures value { result ≡ solved_status solved }
    ensures not_two { result ≢ 2 }
{
    match solved {
        Solved::Sat => 10,
        Solved::Unsat => 20,
        Solved::Unknown => 0,
        Solved::Refused(_) => 1,
        Solved::NoMemory | Solved::Denied => 3,
        Solved::ReadFault => 4,
        Solved::WriteFault => 5,
        Solved::TooMuch => 8,
    }
}

/// The fault of an input that was refused.
pub fn refusal_of_solves(solved: Solved) -> Option<CnfFault>
    ensures { result ≡ solved_refusal solved }
{
    match solved {
        Solved::Refused(fault) => Some(fault),
        _ => None,
    }
}
