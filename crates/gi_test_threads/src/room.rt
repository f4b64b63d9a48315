ghost use Rattle.std.specs.Prelude.{◌≡◌, true};
ghost use Rattle.gi_model.specs.Fits.{fits};

use gi_model::{Call, Now, Phase, Refusal, Reply, Status, Verdict};
use gi_room::{OpenGate, Pass, Room};
use std::alloc::{AllocError, Global};
use std::sync::Wait;
use std::test::Fail;
use std::thread::{Threads, join_mut};

fn shared<T: Send + Sync>(_: &T) {}

fn sent<T: Send>(_: &T) {}

fn cross_threads(room: &Room, pass: &Pass) {
    shared(room);
    sent(pass);
}

/// What a row does.
#[derive(Clone, Copy)]
enum Act {
    Vars,
    Solve,
    Help,
    Poll,
    Shut,
}

/// What it is answered.
#[derive(Clone, Copy, PartialEq)]
enum Told {
    Vars,
    Started,
    Sat,
    Idle,
    Done,
    Dead,
    NoSolve,
    Spent,
    Other,
}

fn answer_in(reply: Reply) -> Told {
    match reply {
        Reply::Vars(1) => Told::Vars,
        Reply::Started(1) => Told::Started,
        Reply::Worked {
            now: Now::Ended(Verdict::Sat(_)),
            ..
        } => Told::Sat,
        Reply::Idle => Told::Idle,
        Reply::Done => Told::Done,
        Reply::Refused(Refusal::Dead) => Told::Dead,
        Reply::Refused(Refusal::NoSolve) => Told::NoSolve,
        Reply::Spent => Told::Spent,
        _ => Told::Other,
    }
}

/// A room, and a pass of it.
#[derive(Drop)]
struct Desk {
    room: Room,
    pass: Pass,
    ghost of: { pass.place ≡ room },
}

impl Desk {
    fn open(alloc: Global) -> Result<Desk, AllocError> {
        let (room, pass) = Room::open(alloc)?;
        cross_threads(&room, &pass);
        Ok(Desk { room, pass })
    }

    fn call<R: Wait>(&mut self, rt: &R, call: &Call) -> Told
        requires { fits call.now ≡ true }
    {
        answer_in(self.room.call(rt, &mut self.pass, call))
    }

    fn act<R: Wait>(&mut self, rt: &R, act: Act) -> Told {
        match act {
            Act::Vars => self.call(rt, &Call::Vars(1)),
            Act::Solve => self.call(rt, &Call::Solve(5)),
            Act::Help => answer_in(self.room.help(rt, &mut self.pass)),
            Act::Poll => self.call(rt, &Call::Poll),
            Act::Shut => self.call(rt, &Call::Shut),
        }
    }

    fn stands_at(&mut self, length: u64, phase: Phase) -> bool {
        let (now, named) = self.room.peek(&mut self.pass);
        now == length && named == phase
    }

    /// Goes on with the pass that is split off, again and again.
    fn split_often(&mut self, times: u32) {
        for _ in 0..times {
            self.pass = self.room.split(&mut self.pass);
        }
    }
}

const ROWS: [(Act, Told, u64, Phase); 6] = [
    (Act::Vars, Told::Vars, 1, Phase::Idle),
    (Act::Solve, Told::Started, 2, Phase::Live),
    (Act::Help, Told::Sat, 3, Phase::Ended),
    (Act::Help, Told::Idle, 4, Phase::Ended),
    (Act::Shut, Told::Done, 5, Phase::Shut),
    (Act::Poll, Told::Dead, 6, Phase::Shut),
];

#[test]
fn calls_one_after_the_other(rt: HostRuntime) -> Result<(), Fail> {
    let mut desk = Desk::open(rt.alloc())?;
    for (act, answer, length, phase) in ROWS {
        assert!(rt; desk.act(&rt, act) == answer);
        assert!(rt; desk.stands_at(length, phase));
    }
    Ok(())
}

#[test]
fn a_pass_is_used_up(rt: HostRuntime) -> Result<(), Fail> {
    let mut desk = Desk::open(rt.alloc())?;
    desk.split_often(56);
    assert_eq!(rt; desk.pass.calls_left(), 1);
    assert!(rt; desk.act(&rt, Act::Poll) == Told::NoSolve);
    assert!(rt; desk.act(&rt, Act::Poll) == Told::Spent);
    assert!(rt; desk.act(&rt, Act::Help) == Told::Spent);
    assert!(rt; desk.stands_at(1, Phase::Idle));
    Ok(())
}

#[test]
fn a_pass_is_joined_again(rt: HostRuntime) -> Result<(), Fail> {
    let (room, mut pass) = Room::open(rt.alloc())?;
    let mut other = room.split(&mut pass);
    let _vars = answer_in(room.call(&rt, &mut other, &Call::Vars(1)));
    room.join(&mut pass, other);
    assert_eq!(rt; pass.calls_left(), (1 << 56) - 1);
    Ok(())
}

fn has_ended(reply: Reply) -> bool {
    matches!(
        reply,
        Reply::Status {
            status: Status::Sat,
            ..
        }
    )
}

/// Polls until the solve has ended with a model. `false`: it doesn't.
fn poll<R: Wait>(rt: &R, room: &Room, pass: &mut Pass) -> bool
    requires of { pass.old.place ≡ room.now }
    ensures of { pass.new.place ≡ room.now }
{
    for _ in 0..10_000_000u32 {
        if has_ended(room.call(rt, pass, &Call::Poll)) {
            return true;
        }
    }
    false
}

/// Starts a solve, which another pass has to work on, waits for its end by polling alone, and shuts
/// the machine.
fn solve_without_work<R: Wait>(rt: &R, room: &Room, pass: &mut Pass) -> bool
    requires of { pass.old.place ≡ room.now }
{
    let _started = answer_in(room.call(rt, pass, &Call::Solve(5)));
    let found = poll(rt, room, pass);
    let _done = answer_in(room.call(rt, pass, &Call::Shut));
    found
}

fn solve_with_worker<R: Threads + Wait + Sync>(
    rt: &R,
    room: &Room,
    pass: &mut Pass,
    worker: &mut Pass,
) -> bool
    requires of { (pass.old.place ≡ room.now) × (worker.old.place ≡ room.now) }
{
    let ((), found) = join_mut(
        rt,
        &mut || room.help_until_shut(rt, worker, &OpenGate),
        &mut || solve_without_work(rt, room, pass),
    );
    found
}

#[test]
fn a_worker_beside_calls(rt: HostRuntime) -> Result<(), Fail> {
    let (room, mut pass) = Room::open(rt.alloc())?;
    let mut worker = room.split(&mut pass);
    assert!(rt; solve_with_worker(&rt, &room, &mut pass, &mut worker));
    Ok(())
}

#[test]
fn a_worker_ends_where_the_machine_is_shut(rt: HostRuntime) -> Result<(), Fail> {
    let (room, mut pass) = Room::open(rt.alloc())?;
    let _done = answer_in(room.call(&rt, &mut pass, &Call::Shut));
    let pass = room.work_until_shut(&rt, pass, &OpenGate);
    assert_eq!(rt; pass.calls_left(), (1 << 56) - 1);
    Ok(())
}
