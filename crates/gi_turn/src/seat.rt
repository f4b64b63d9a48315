// A caller's place at a turnstile.
ghost use Rattle.std.specs.Prelude.{◌≡◌, ◌<◌, ◌^◌, ◌∷◌, [], None, Some, false, if◌then◌else◌};

use crate::view::View;

pub(crate) type Chair<T> = atomic_table::Seat<Option<T>, View>;

/// A caller's place at one turnstile. Contracts see what it knows by `view_of`. The calls of a seat
/// that is dropped are lost. Where it has the turn then, nobody comes to another.
#[derive(Drop)]
pub struct Seat<T> {
    pub(crate) chair: Chair<T>,
    pub(crate) ticket: u64,
    pub(crate) left: u64,
    ghost left_is: { left ≡ chair.me.0.left },
    ghost small: { ticket < 2 ^ 56 },
    ghost live: { chair.me.0.spent ≡ false },
    ghost settled: { chair.me.0.merged ≡ [] },
    ghost ticket_is: { chair.me.0.ticket ≡ (if chair.me.0.turn then Some ticket else None) },
    ghost carried: { chair.me.1 ≡ (if chair.me.0.turn then (0, None) ∷ [] else []) },
}

impl<T> Seat<T> {
    ghost use Rattle.gi_turn.specs.Seats.{view_of};

    /// How many turns the seat may still draw, at most 2^56.
    pub fn calls_left(&self) -> u64
        ensures { result ≡ (view_of self.now).left }
    {
        self.left
    }
}
