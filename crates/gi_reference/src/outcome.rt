use gi_lit::{Lit, Lits};

/// What a clause says after some literals.
#[derive(Clone, Copy)]
pub enum Scan {
    Settled,
    Forced(Lit),
    Falsified,
}

/// What comes after some literals.
#[derive(Clone, Copy)]
pub enum Next {
    Clash,
    Forced(Lit),
    Closed,
}

/// The unit closure: that it conflicts, or all its literals.
#[derive(Drop)]
pub enum Outcome {
    Conflict,
    Whole(Lits),
}
