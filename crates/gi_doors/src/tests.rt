// A row from outside, each call once, and a socket of this machine.
ghost use Rattle.gi_doors.specs.Fresh.{IsFresh};
ghost use Rattle.gi_outside.specs.MemoryState.{memory_state};

use crate::{Came, Dial, Dialed, Door, Listened, MemoryDial, MemoryDoor, TcpDial, TcpDoor};
use gi_outside::{Got, Link, MemoryLink, Put};
use gi_text::Bytes;
use std::alloc::{AllocError, Global};
use std::net::Net;

fn quiet_link(alloc: Global) -> MemoryLink
    ensures { IsFresh (memory_state result) }
{
    let none = Vec::new(alloc);
    MemoryLink::new(
        alloc,
        Bytes::new(alloc),
        none,
        Vec::new(alloc),
        Vec::new(alloc),
    )
}

fn fails(door: &mut MemoryDoor) -> bool {
    matches!(door.accept(), Came::Failed)
}

fn takes_a_link(door: &mut MemoryDoor) -> bool {
    match door.accept() {
        Came::Link(link) => {
            door.hang_up(link);
            door.done().len() == 1
        }
        Came::Closed | Came::Failed => false,
    }
}

fn is_closed(door: &mut MemoryDoor) -> bool {
    matches!(door.accept(), Came::Closed)
}

fn follows_its_script(alloc: Global) -> Result<bool, AllocError> {
    let links = vec![in alloc; quiet_link(alloc)]?;
    let bad_accepts = vec![in alloc; 1]?;
    let mut door = MemoryDoor::new(alloc, links, bad_accepts)?;
    let ready = door.listen(4000) == Listened::Ready;
    let failed = fails(&mut door);
    let linked = takes_a_link(&mut door);
    let closed = is_closed(&mut door);
    Ok(ready && failed && linked && closed)
}

#[test]
fn a_door_follows_its_script(rt: HostRuntime) {
    assert!(rt; follows_its_script(rt.alloc()) == Ok(true));
}

fn gives_and_keeps(dial: &mut MemoryDial) -> bool {
    match dial.dial(4000) {
        Dialed::Link(link) => {
            let none = dial.done().is_none();
            dial.hang_up(link);
            none && dial.done().is_some()
        }
        Dialed::Failed => false,
    }
}

fn dials_once(alloc: Global) -> bool {
    let mut dial = MemoryDial::new(quiet_link(alloc));
    gives_and_keeps(&mut dial) && matches!(dial.dial(4000), Dialed::Failed)
}

#[test]
fn a_dial_gives_its_link_once(rt: HostRuntime) {
    assert!(rt; dials_once(rt.alloc()));
}

// Listens at a port that is free.
fn find_port<D: Door>(door: &mut D) -> Option<u16> {
    for port in 40000..40100u16 {
        if let Listened::Ready = door.listen(port) {
            return Some(port);
        }
    }
    None
}

fn passes<A: Link, B: Link>(from: &mut A, to: &mut B) -> bool {
    let mut into = [0u8; 16];
    let put = from.write(b"vars 1\n".as_slice());
    let got = to.read(&mut into);
    put == Put::Took(7) && got == Got::Bytes(7) && into.starts_with(b"vars 1\n".as_slice())
}

fn has_ended<L: Link>(link: &mut L) -> bool {
    let mut into = [0u8; 16];
    link.read(&mut into) == Got::End
}

fn talks<R: Net>(net: &R) -> bool {
    let mut door = TcpDoor::new(net);
    let mut dial = TcpDial::new(net);
    match find_port(&mut door) {
        Some(port) => connects(&mut door, &mut dial, port),
        None => false,
    }
}

fn connects<R: Net>(door: &mut TcpDoor<&R>, dial: &mut TcpDial<&R>, port: u16) -> bool {
    match dial.dial(port) {
        Dialed::Link(mut near) => match door.accept() {
            Came::Link(mut far) => {
                let there = passes(&mut near, &mut far);
                let back = passes(&mut far, &mut near);
                dial.hang_up(near);
                let ended = has_ended(&mut far);
                door.hang_up(far);
                there && back && ended
            }
            Came::Closed | Came::Failed => false,
        },
        Dialed::Failed => false,
    }
}

#[test]
fn a_socket_of_this_machine(rt: HostRuntime) {
    assert!(rt; talks(&rt));
}

fn nobody_listens<R: Net>(net: &R) -> bool {
    let mut dial = TcpDial::new(net);
    let mut door = TcpDoor::new(net);
    let unheard = matches!(dial.dial(39999), Dialed::Failed);
    unheard && matches!(door.accept(), Came::Failed)
}

#[test]
fn faults_are_told(rt: HostRuntime) {
    assert!(rt; nobody_listens(&rt));
}
