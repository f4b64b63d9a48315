// What a value and an entry mean.
ghost use Rattle.std.specs.Prelude.{List, ℕ, ◌++◌};
ghost use Rattle.gi_turn.specs.declared.view.Entry.{Entry};

/// A value that changes from turn to turn.
pub trait Stands {
    // The value stands for the history.
    ghost stands: { Self → List Entry → Type 0 };
    // Which marks may be asked over a history.
    ghost may_ask: { List Entry → ℕ → Type 0 };

    // What may be asked over a history may be asked over a longer one.
    ghost longer: { (log more : List Entry) (mark : ℕ)
        → may_ask log mark → may_ask (log ++ more) mark };
}

/// What a caller adds to the history as it leaves.
pub trait Entered {
    // What the entry tells.
    ghost told: { Self → List (List ℕ) };
    // The mark that the turn carried out, or 0.
    ghost mark: { Self → ℕ };
}
