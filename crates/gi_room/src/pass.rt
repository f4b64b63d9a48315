use crate::shared_core::SharedCore;
use gi_model::solves_are_short;
use gi_turn::Seat;
use std::marker::Model;

/// A caller's leave to use a room, with a number of its own there. Contracts see it as `Seen`; all
/// of that but the calls left is of proofs alone. The calls of a pass that is dropped are lost.
#[derive(Drop)]
pub struct Pass {
    pub(crate) seat: Seat<SharedCore>,
}

impl Model for Pass {
    ghost use Rattle.gi_turn.specs.Seats.{view_of};
    ghost use Rattle.gi_turn.specs.Known.{place_of};
    ghost use Rattle.gi_room.specs.Seen.{Seen, seen_of, IsPassView};

    ghost Value = { Seen };

    ghost view = { λ p. seen_of (place_of p.seat) (view_of p.seat) };

    ghost invariant = { λ p. IsPassView (view_of p.seat) };
}

impl Pass {
    ghost use Rattle.std.specs.Prelude.{◌≡◌, Contains};
    ghost use Rattle.gi_model.specs.History.{IsLegal};
    ghost use Rattle.gi_room.specs.Calls.{HasCauses, KnowsPhases, SolvesAreShort};

    /// What holds of every pass: it holds its own number; the history that it has seen is a legal
    /// one of the machine; each glance at a length that the history has reached names the phase
    /// there; each stop in it was asked for after its solve was started, by this pass where it is
    /// the sole one; and each solve in it learns at most 3^n clauses over n variables while no edit
    /// is accepted.
    pub fn knows(&self)
        ensures own { Contains self.now.held self.now.number }
        ensures legal { IsLegal self.now.history }
        ensures phases { KnowsPhases self.now }
        ensures causes { HasCauses self.now }
        ensures short { SolvesAreShort self.now.history }
    {
        let _ = &self.seat;
        solves_are_short();
    }

    /// How many entries the pass may still make, at most 2^56.
    pub fn calls_left(&self) -> u64
        ensures { result ≡ self.now.left }
    {
        self.seat.calls_left()
    }
}
