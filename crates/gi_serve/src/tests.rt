// Rows from outside: sessions over doors in memory, and over a socket of this machine.
ghost use Rattle.std.specs.Prelude.{IfOk};
ghost use Rattle.gi_doors.specs.Fresh.{IsFresh};
ghost use Rattle.gi_outside.specs.MemoryState.{memory_state};

use crate::{DropPasses, KeepPasses, ServeEnd, serve};
use gi_doors::{Dial, Dialed, Door, Listened, MemoryDoor, TcpDial, TcpDoor};
use gi_outside::{Got, Link, MemoryLink, Put};
use gi_room::OpenGate;
use gi_text::Bytes;
use std::alloc::{AllocError, Global};
use std::net::Net;
use std::sync::Wait;
use std::test::Fail;
use std::thread::Threads;

fn link_of(alloc: Global, input: &str) -> Result<MemoryLink, AllocError>
    ensures { IfOk result (λ link. IsFresh (memory_state link)) }
{
    let input = Bytes::of(alloc, input.as_bytes())?;
    let (cuts, reads, writes) = (Vec::new(alloc), Vec::new(alloc), Vec::new(alloc));
    Ok(MemoryLink::new(alloc, input, cuts, reads, writes))
}

fn is_written(link: Option<&MemoryLink>, output: &str) -> bool {
    match link {
        Some(link) => link.written() == output.as_bytes(),
        None => false,
    }
}

fn two_are_served<R: Threads + Wait + Sync>(rt: &R, alloc: Global) -> Result<bool, AllocError> {
    let first = link_of(alloc, "bye\n")?;
    let second = link_of(alloc, "add 1")?;
    let links = vec![in alloc; first, second]?;
    let mut door = MemoryDoor::new(alloc, links, Vec::new(alloc))?;
    let mut user = link_of(alloc, "")?;
    let mut shelf = KeepPasses::new(alloc);
    let end = serve(
        rt, alloc, &mut door, &mut user, &OpenGate, &mut shelf, false, 5,
    );
    let kept = shelf.passes().len() == 2 && shelf.lost() == 0;
    let answered = is_written(door.done().get(0), "bye\n");
    let refused = is_written(door.done().get(1), "refused 1 1\n");
    let printed = user.written() == "closed 1 bye\nclosed 2 eof\n".as_bytes();
    Ok(end == ServeEnd::Closed && kept && answered && refused && printed)
}

#[test]
fn one_connection_after_the_other(rt: HostRuntime) -> Result<(), Fail> {
    let served = two_are_served(&rt, rt.alloc())?;
    assert!(rt; served);
    Ok(())
}

// The lines of one session, and their answers.
const SESSION: &str = "solve\nstop\nmodel\nstop\nsolve\nwait\n";

const ANSWERS: &str =
    "started 1\nunknown 1 stopped\nrefused 3 13\nunknown 1 stopped\nstarted 2\nsat 2\n";

fn one_is_served<R: Threads + Wait + Sync>(rt: &R, alloc: Global) -> Result<bool, AllocError> {
    let link = link_of(alloc, SESSION)?;
    let links = vec![in alloc; link]?;
    let mut door = MemoryDoor::new(alloc, links, Vec::new(alloc))?;
    let mut user = link_of(alloc, "")?;
    let mut shelf = DropPasses::new();
    let end = serve(
        rt, alloc, &mut door, &mut user, &OpenGate, &mut shelf, true, 1,
    );
    let answered = is_written(door.done().get(0), ANSWERS);
    let printed = user.written() == "closed 1 eof\n".as_bytes();
    Ok(end == ServeEnd::Done && answered && printed)
}

#[test]
fn as_many_as_were_wanted(rt: HostRuntime) -> Result<(), Fail> {
    let served = one_is_served(&rt, rt.alloc())?;
    assert!(rt; served);
    Ok(())
}

fn the_door_fails<R: Threads + Wait + Sync>(rt: &R, alloc: Global) -> Result<bool, AllocError> {
    let link = link_of(alloc, "bye\n")?;
    let links = vec![in alloc; link]?;
    let bad_accepts = vec![in alloc; 1]?;
    let mut door = MemoryDoor::new(alloc, links, bad_accepts)?;
    let mut user = link_of(alloc, "")?;
    let mut shelf = DropPasses::new();
    let end = serve(
        rt, alloc, &mut door, &mut user, &OpenGate, &mut shelf, true, 1,
    );
    Ok(end == ServeEnd::DoorFault && door.done().is_empty() && user.written().is_empty())
}

#[test]
fn a_door_that_fails(rt: HostRuntime) -> Result<(), Fail> {
    let failed = the_door_fails(&rt, rt.alloc())?;
    assert!(rt; failed);
    Ok(())
}

// Listens at a port that is free.
fn find_port<D: Door>(door: &mut D) -> Option<u16> {
    for port in 41000..41100u16 {
        if let Listened::Ready = door.listen(port) {
            return Some(port);
        }
    }
    None
}

fn is_answered<L: Link>(link: &mut L) -> bool {
    let mut into = [0u8; 16];
    let got = link.read(&mut into);
    got == Got::Bytes(4) && into.starts_with(b"bye\n".as_slice())
}

// A peer that has written its line before it is accepted, so that no thread is needed for it.
fn peer_is_served<R: Threads + Wait + Sync + Net>(
    rt: &R,
    alloc: Global,
    door: &mut TcpDoor<&R>,
    port: u16,
) -> Result<bool, AllocError> {
    let mut dial = TcpDial::new(rt);
    let mut user = link_of(alloc, "")?;
    let mut shelf = DropPasses::new();
    match dial.dial(port) {
        Dialed::Link(mut near) => {
            let put = near.write(b"bye\n".as_slice());
            let end = serve(rt, alloc, door, &mut user, &OpenGate, &mut shelf, true, 1);
            let answered = is_answered(&mut near);
            dial.hang_up(near);
            let printed = user.written() == "closed 1 bye\n".as_bytes();
            Ok(put == Put::Took(4) && end == ServeEnd::Done && answered && printed)
        }
        Dialed::Failed => Ok(false),
    }
}

fn a_peer_comes<R: Threads + Wait + Sync + Net>(rt: &R, alloc: Global) -> Result<bool, AllocError> {
    let mut door = TcpDoor::new(rt);
    match find_port(&mut door) {
        Some(port) => peer_is_served(rt, alloc, &mut door, port),
        None => Ok(false),
    }
}

#[test]
fn over_a_socket_of_this_machine(rt: HostRuntime) -> Result<(), Fail> {
    let served = a_peer_comes(&rt, rt.alloc())?;
    assert!(rt; served);
    Ok(())
}
