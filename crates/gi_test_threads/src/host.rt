ghost use Rattle.std.specs.Prelude.{◌≡◌};

use gi_host::{SessionEnd, host_one, serve_one};
use gi_model::Call;
use gi_net::How;
use gi_outside::MemoryLink;
use gi_room::{OpenGate, Pass, Room};
use gi_text::Bytes;
use std::alloc::{AllocError, Global};
use std::sync::Wait;
use std::test::Fail;
use std::thread::Threads;

// Whether it is quiet, the input, how the session ends, and what it answers.
type Row = (bool, &'static str, How, &'static str);

const ROWS: [Row; 5] = [
    (
        true,
        "vars 3\nx\npoll",
        How::Eof,
        "vars 3\nrefused 2 1\nrefused 3 12\n",
    ),
    (
        true,
        "add 1 2 0\nadd -1 0\nsolve\nstop\npoll\nbye\nvars 4\n",
        How::Bye,
        "ok\nok\nstarted 1\nunknown 1 stopped\nunknown 1 stopped\nbye\n",
    ),
    (
        true,
        "add 1 2 0\nadd -1 0\nsolve\nwait\nmodel\n",
        How::Eof,
        "ok\nok\nstarted 1\nsat 1\nmodel -1 2 0\n",
    ),
    (
        false,
        "add 1 2 0\nadd -1 0\nsolve\nwait\nmodel\nbye\n",
        How::Bye,
        "ok\nok\nstarted 1\nsat 1\nmodel -1 2 0\nbye\n",
    ),
    (false, "stop\nvars 1\n", How::Eof, "refused 1 12\nvars 1\n"),
];

fn link_of(alloc: Global, input: &str) -> Result<MemoryLink, AllocError> {
    let input = Bytes::of(alloc, input.as_bytes())?;
    let (cuts, reads, writes) = (Vec::new(alloc), Vec::new(alloc), Vec::new(alloc));
    Ok(MemoryLink::new(alloc, input, cuts, reads, writes))
}

fn is_as(end: SessionEnd, link: &MemoryLink, how: How, output: &str) -> bool {
    end.how == how && link.written() == output.as_bytes() && end.pass.calls_left() < 1 << 56
}

fn is_hosted<R: Threads + Wait + Sync>(
    rt: &R,
    alloc: Global,
    row: Row,
) -> Result<bool, AllocError> {
    let (quiet, input, how, output) = row;
    let (room, pass) = Room::open(alloc)?;
    let mut link = link_of(alloc, input)?;
    let end = host_one(rt, alloc, &room, pass, &mut link, &OpenGate, quiet);
    Ok(is_as(end, &link, how, output))
}

#[test]
fn sessions(rt: HostRuntime) -> Result<(), Fail> {
    for row in ROWS {
        let hosted = is_hosted(&rt, rt.alloc(), row)?;
        assert!(rt; hosted);
    }
    Ok(())
}

/// A pass that is split off the one before, again and again.
fn split_often(room: &Room, pass: Pass, times: u32) -> Pass
    requires of { pass.place ≡ room.now }
    ensures of { result.place ≡ room.now }
{
    let mut last = pass;
    for _ in 0..times {
        last = room.split(&mut last);
    }
    last
}

fn is_used_up<R: Wait>(rt: &R, alloc: Global) -> Result<bool, AllocError> {
    let (room, pass) = Room::open(alloc)?;
    let last = split_often(&room, pass, 56);
    let mut link = link_of(alloc, "vars 1\nvars 1\n")?;
    let end = serve_one(rt, alloc, &room, last, &mut link);
    Ok(is_as(end, &link, How::TooMuch, "vars 1\n"))
}

#[test]
fn a_pass_is_used_up(rt: HostRuntime) -> Result<(), Fail> {
    let used_up = is_used_up(&rt, rt.alloc())?;
    assert!(rt; used_up);
    Ok(())
}

fn is_over<R: Wait>(rt: &R, alloc: Global) -> Result<bool, AllocError> {
    let (room, mut pass) = Room::open(alloc)?;
    let other = room.split(&mut pass);
    drop(room.call(rt, &mut pass, &Call::Shut));
    let mut link = link_of(alloc, "poll\npoll\n")?;
    let end = serve_one(rt, alloc, &room, other, &mut link);
    Ok(is_as(end, &link, How::Dead, "refused 1 3\n"))
}

#[test]
fn a_room_is_over(rt: HostRuntime) -> Result<(), Fail> {
    let over = is_over(&rt, rt.alloc())?;
    assert!(rt; over);
    Ok(())
}
