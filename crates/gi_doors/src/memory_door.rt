// A door in memory, which hands out the links that it was given.
ghost use Rattle.std.specs.Prelude.{◌≡◌, ◌≤◌, ◌<◌, ◌+◌, [], Some, IfSome, OnOk, IfOk, All, false, vec_len, vec_capacity};
ghost use Rattle.gi_doors.specs.Door.{Accepts, HangsUp, Listens};
ghost use Rattle.gi_doors.specs.declared.door.Listened.TheVariants as listened;
ghost use Rattle.gi_doors.specs.Fresh.{IsFresh};
ghost use Rattle.gi_doors.specs.DoorScript.{FollowsAccept, accepts_failed};
ghost use Rattle.gi_outside.specs.MemoryState.{memory_state};
ghost use Rattle.std.specs.Vec.Iter.{into_iter_items, into_iter_len};

use crate::{Came, Door, Listened};
use gi_outside::MemoryLink;
use std::alloc::{AllocError, Global};
use std::vec::IntoIter;

/// A door in memory, which hands out its links in order and is then closed. It fails where it was
/// told to, and nowhere else. It keeps the links that were hung up.
#[derive(Drop)]
pub struct MemoryDoor {
    links: IntoIter<MemoryLink>,
    bad_accepts: Vec<u64>,
    accepts: u64,
    faults: u64,
    ended: bool,
    most: usize,
    out: usize,
    done: Vec<MemoryLink>,
    ghost fresh: { All (λ link. IsFresh (memory_state link)) (into_iter_items links) },
    ghost all: { vec_len done + out + into_iter_len links ≤ most },
    ghost room: { most ≤ vec_capacity done },
}

impl MemoryDoor {
    ghost use Rattle.gi_doors.specs.MemoryDoorState.{door_done, door_script, door_state};

    /// A door with these links, through which nothing has gone. The accepts whose numbers stand in
    /// `bad_accepts` fail, counted from 1. All the memory that it ever takes it takes here.
    pub fn new(
        alloc: Global,
        links: Vec<MemoryLink>,
        bad_accepts: Vec<u64>,
    ) -> Result<MemoryDoor, AllocError>
        requires { All (λ link. IsFresh (memory_state link)) links.items }
        ensures state { IfOk result (λ door. door_state door
            ≡ record { faults = 0; ended = false; out = Some 0; hung = Some [] }) }
        ensures script { IfOk result (λ door. door_script door
            ≡ record { accepts = 0; links = links.items; bad_accepts = bad_accepts.items }) }
    {
        let most = links.len();
        let done = Vec::with_capacity(alloc, most)?;
        Ok(MemoryDoor {
            links: links.into_iter(),
            bad_accepts,
            accepts: 0,
            faults: 0,
            ended: false,
            most,
            out: 0,
            done,
        })
    }

    /// The links that were hung up, in order.
    pub fn done(&self) -> &[MemoryLink]
        ensures { result.now ≡ door_done self.now }
    {
        self.done.as_slice()
    }
}

impl Door for MemoryDoor {
    ghost use Rattle.gi_doors.specs.MemoryDoorState.{door_script, door_state};

    type L = MemoryLink;

    ghost state = { door_state };

    fn listen(&mut self, _port: u16) -> Listened
        ensures count { (door_state self.old).faults ≤ (door_state self.new).faults }
        ensures does { Listens result (door_state self.old) (door_state self.new) }
        ensures ready { result ≡ listened.Ready }
        ensures same { self.new ≡ self.old }
    {
        Listened::Ready
    }

    fn accept(&mut self) -> Came<MemoryLink>
        ensures count { (door_state self.old).faults ≤ (door_state self.new).faults }
        ensures does { Accepts memory_state result (door_state self.old) (door_state self.new) }
        ensures script { FollowsAccept result (door_script self.old) (door_script self.new) }
        ensures faults { (door_state self.new).faults
            ≡ accepts_failed result (door_state self.old).faults }
    {
        self.accepts = self.accepts.saturating_add(1);
        if self.bad_accepts.contains(&self.accepts) {
            self.faults = self.faults.saturating_add(1);
            return Came::Failed;
        }
        match self.links.next() {
            Some(link) => {
                self.out += 1;
                Came::Link(link)
            }
            None => {
                self.ended = true;
                Came::Closed
            }
        }
    }

    fn hang_up(&mut self, link: MemoryLink)
        requires { 0 < self.old.out }
        ensures count { (door_state self.old).faults ≤ (door_state self.new).faults }
        ensures does { HangsUp link (door_state self.old) (door_state self.new) }
        ensures script { door_script self.new ≡ door_script self.old }
    {
        self.out -= 1;
        let _room = self.done.push(link);
    }
}
