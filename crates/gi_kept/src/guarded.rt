// A clause under guards.
use gi_lit::{Clause, Guards};
use std::marker::Model;

/// A clause that is in force where all its guards are assumed.
#[derive(Debug, Drop)]
pub struct Guarded {
    pub guards: Guards,
    pub clause: Clause,
}

impl Model for Guarded {
    ghost use Rattle.gi_lit.specs.Problem.{Group};

    ghost Value = { Group };

    ghost view = { λ q. record { guards = q.guards; clause = q.clause } };
}
