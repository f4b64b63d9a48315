// A dial that goes out to a peer.
ghost use Rattle.std.specs.Prelude.{◌≤◌};
ghost use Rattle.gi_doors.specs.Dial.{Dials, HangsUpDialed};
ghost use Rattle.gi_doors.specs.DialState.{DialState, HasLinkOut, HungWereGiven};

use gi_outside::Link;

/// What dialing came to.
#[derive(Drop)]
pub enum Dialed<L> {
    /// This link goes there. Nothing has gone through it yet.
    Link(L),
    /// No link was made.
    Failed,
}

/// A dial that goes out to a peer, and hangs up.
///
/// Faults are counted, and the count never falls. How many links it gave may be told or not, and so
/// may those that were hung up, which are never more.
pub trait Dial {
    type L: Link;

    /// What is known of the dial.
    ghost state: { Self → DialState Self.L };

    /// Goes out to a port of this machine.
    fn dial(&mut self, port: u16) -> Dialed<Self::L>
        ensures count { (state self.old).faults ≤ (state self.new).faults }
        ensures does { Dials Self.L.state result (state self.old) (state self.new) };

    /// Closes a link. Where it is told what was given and hung up, a link is out.
    fn hang_up(&mut self, link: Self::L)
        requires { HasLinkOut (state self.old) }
        ensures count { (state self.old).faults ≤ (state self.new).faults }
        ensures does { HangsUpDialed link (state self.old) (state self.new) };

    /// No more links were hung up than were given.
    ghost hung_were_given: { (dial : Self) → HungWereGiven (state dial) };
}
