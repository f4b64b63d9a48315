// The brake of a turn, which looks at STOP.
ghost use Rattle.std.specs.Prelude.{◌≡◌};
ghost use Rattle.gi_turn.specs.Seats.{IsOf};

use crate::shared_core::SharedCore;
use gi_cdcl::Brake;
use gi_turn::{Seat, Turnstile};

/// Looks at STOP for the seat whose turn it is.
#[derive(Drop)]
pub(crate) struct Ear<'a> {
    pub turnstile: &'a Turnstile<SharedCore>,
    pub seat: &'a mut Seat<SharedCore>,
    pub ghost of: { IsOf turnstile.now seat.now },
}

impl<'a> Brake for Ear<'a> {
    ghost use Rattle.std.specs.Prelude.{◌≡◌, length, refl};
    ghost use Rattle.gi_turn.specs.Seats.{view_of};
    ghost use Rattle.std.proofs.Common.{◌∙◌};
    ghost use Rattle.gi_turn.specs.Known.{place_of};
    ghost use Rattle.gi_room.specs.Hearing.{greatest, Hears};
    ghost use Rattle.gi_room.specs.Lawful.{hears_none, hears_both};

    ghost top = { λ e. greatest (view_of e.seat.now).fresh };

    ghost asks = { λ e. length (view_of e.seat.now).fresh };

    ghost follows = { λ e f. (f.seat.ghost_name ≡ e.seat.ghost_name)
        × (place_of f.seat.now ≡ place_of e.seat.now)
        × Hears (view_of e.seat.now) (view_of f.seat.now) };

    fn see(&mut self) -> u64 {
        self.turnstile.see(self.seat)
    }

    ghost reflexive = { λ b. (refl, refl, hears_none _) };

    ghost transitive = { λ a b c f g. (g.0 ∙ f.0, g.1 ∙ f.1, hears_both _ _ _ f.2 g.2) };
}
