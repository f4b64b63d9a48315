// The caller's side of a machine. Others may call between.
ghost use Rattle.std.specs.Prelude.{◌≡◌, ◌≤◌, true, Some, IsSome};
ghost use Rattle.gi_model.specs.Fits.{fits};

use gi_model::{Call, Reply};

/// What came of a call.
#[derive(Clone, Copy, Debug, PartialEq, Eq)]
pub enum Answered {
    /// It has an entry in the history, with its reply.
    Recorded,
    /// There was no memory for its entry, which the caller counts.
    NoMemory,
    /// No call was left.
    Spent,
}

/// One of the callers of a machine. Each of its calls becomes an entry of the machine's history, of
/// which it sees all up to its own last entry. A `Wait` may make own `Work` entries before its own.
pub trait Caller {
    ghost use Rattle.std.specs.Prelude.{Option, ℕ};
    ghost use Rattle.gi_outside.specs.Link.{Rose};
    ghost use Rattle.gi_model.specs.declared.replies.Reply.{Reply};
    ghost use Rattle.gi_net.specs.Standing.{Standing};
    ghost use Rattle.gi_net.specs.Calls.{Makes};

    /// Its number, the history that it has seen, and its calls left.
    ghost standing: { Self → Standing };

    /// The reply to its last call, where that has an entry.
    ghost answer: { Self → Option Reply };

    /// How many of its calls have no entry for want of memory. The count never falls. One that
    /// stands at the last value of a u64 tells nothing, and neither does a caller that doesn't
    /// count.
    ghost starved: { Self → ℕ } = { λ _. 18446744073709551615 };

    /// What one call does besides. A session tells that its caller was led on by calls that do so.
    ghost kept: { Self → Self → Type 0 } = { λ _ _. Unit {0} };

    /// Makes a call, which may not be `Work`, a solve with no budget, a clause under no guard, or a
    /// load of more than
    /// `MAX_PAYLOAD` bytes.
    fn call(&mut self, call: Call) -> Answered
        requires { fits call ≡ true }
        ensures makes { Makes result call (answer self.new) (standing self.old)
            (standing self.new) }
        ensures count { starved self.old ≤ starved self.new }
        ensures cause { result ≡ Answered.NoMemory → Rose (starved self.old) (starved self.new) }
        ensures kept { kept self.old self.new };

    /// The reply to the last call.
    fn reply(&self) -> &Reply
        requires { IsSome (answer self.now) }
        ensures { answer self.now ≡ Some result.now };
}
