// The worker of a room.
ghost use Rattle.std.specs.Prelude.{◌≡◌, ◌≢◌, ◌<◌, MatchBool, true, false};
ghost use Rattle.gi_room.specs.Calls.{HelpEnds, OnlyHelps, is_over};
ghost use Rattle.gi_model.specs.declared.phase.Phase.TheVariants as phase;

use crate::gate::Gate;
use crate::pass::Pass;
use crate::room::Room;
use gi_model::Phase;
use std::sync::Wait;

/// Whether the machine takes no more calls.
fn is_over(phase: Phase) -> bool
    ensures { result ≡ is_over phase }
{
    matches!(phase, Phase::Shut | Phase::Dead)
}

impl Room {
    // Helps where a solve is running, and else turns the gate.
    fn help_or_turn<R: Wait, G: Gate>(&self, rt: &R, pass: &mut Pass, phase: Phase, gate: &G)
        requires of { pass.old.place ≡ self.now }
        requires left { 0 < pass.old.left }
        ensures { OnlyHelps pass.old pass.new }
    {
        match phase {
            Phase::Live => {
                let _reply = self.help(rt, pass);
            }
            _ => gate.turn(),
        }
    }

    // Looks, and works where there is work to do. `true` at the end.
    fn look_and_help<R: Wait, G: Gate>(&self, rt: &R, pass: &mut Pass, gate: &G) -> bool
        requires of { pass.old.place ≡ self.now }
        ensures helps { OnlyHelps pass.old pass.new }
        ensures ends { result ≡ true → HelpEnds pass.new }
    {
        let (_, phase) = self.peek(pass);
        if is_over(phase) {
            return true;
        }
        if pass.calls_left() == 0 {
            return true;
        }
        self.help_or_turn(rt, pass, phase, gate);
        false
    }

    /// Does the work of the room's solves, each slice an entry of its own, until it sees that the
    /// machine is shut or dead, or the pass has no call left. It turns the gate each time that it
    /// finds no solve running.
    pub fn help_until_shut<R: Wait, G: Gate>(&self, rt: &R, pass: &mut Pass, gate: &G)
        requires of { pass.old.place ≡ self.now }
        ensures helps { OnlyHelps pass.old pass.new }
        ensures ends { HelpEnds pass.new }
    {
        for _ in rt.forever() {
            if self.look_and_help(rt, pass, gate) {
                return;
            }
        }
        unreachable!()
    }

    /// The same with a pass that comes back.
    pub fn work_until_shut<R: Wait, G: Gate>(&self, rt: &R, pass: Pass, gate: &G) -> Pass
        requires of { pass.place ≡ self.now }
        ensures helps { OnlyHelps pass result }
        ensures ends { HelpEnds result }
    {
        let mut pass = pass;
        self.help_until_shut(rt, &mut pass, gate);
        pass
    }
}
