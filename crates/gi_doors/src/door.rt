// A door at which links come in.
ghost use Rattle.std.specs.Prelude.{◌≤◌, ◌<◌, IfSome};
ghost use Rattle.gi_doors.specs.Door.{Accepts, HangsUp, Listens};
ghost use Rattle.gi_doors.specs.DoorState.{DoorState};

use gi_outside::Link;

/// What listening came to.
#[derive(Clone, Copy, Debug, PartialEq, Eq)]
pub enum Listened {
    /// Links may come.
    Ready,
    /// The door doesn't listen there.
    Failed,
}

/// What came to a door.
#[derive(Drop)]
pub enum Came<L> {
    /// This link came in. Nothing has gone through it yet.
    Link(L),
    /// The door is closed.
    Closed,
    /// The door failed. No link came in.
    Failed,
}

/// A door at which links come in, one after the other, and are hung up.
///
/// Faults are counted, and the count never falls. Whether the door has answered `Closed` is always
/// told. How many links are out, which came in and were not hung up, may be told or not, and so may
/// those that were hung up.
pub trait Door {
    type L: Link;

    /// What is known of the door.
    ghost state: { Self → DoorState Self.L };

    /// Listens at a port of this machine.
    fn listen(&mut self, port: u16) -> Listened
        ensures count { (state self.old).faults ≤ (state self.new).faults }
        ensures does { Listens result (state self.old) (state self.new) };

    /// Waits for the next link.
    fn accept(&mut self) -> Came<Self::L>
        ensures count { (state self.old).faults ≤ (state self.new).faults }
        ensures does { Accepts Self.L.state result (state self.old) (state self.new) };

    /// Closes a link. Where it is told how many are out, there is one.
    fn hang_up(&mut self, link: Self::L)
        requires { IfSome (state self.old).out (λ links. 0 < links) }
        ensures count { (state self.old).faults ≤ (state self.new).faults }
        ensures does { HangsUp link (state self.old) (state self.new) };
}
