ghost use Rattle.std.specs.Prelude.{◌≡◌};

use crate::limits::MAX_PAYLOAD;
use gi_lit::{Guards, Lit, Lits, Var};
use gi_text::Bytes;

/// A call to the machine.
#[derive(Drop)]
pub enum Call {
    /// At least so many variables, from then on.
    Vars(u32),
    /// One more clause, as a disjunction of literals; the empty one can't be satisfied.
    Add(Lits),
    /// A guard, also called an activation literal.
    NewGuard,
    /// One more clause, which is in force only where all the guards are assumed.
    Under(Guards, Lits),
    /// Takes the guard away, and all clauses that name it among their guards.
    DropGuard(Var),
    /// Assumptions for the next test or solve.
    Assume(Lits),
    /// Opens a scope with the pending assumptions, and tells what unit propagation finds.
    Test,
    /// Closes the scope that was opened last.
    Untest,
    /// Why an open scope lists this literal.
    Reasons(Lit),
    /// Starts a solve that may learn so many clauses.
    Solve(u32),
    /// Lets a running solve rest.
    Pause,
    /// Lets a paused solve go on.
    Resume,
    /// Ends a running or paused solve.
    Stop,
    /// How the solve stands.
    Poll,
    /// How the solve ended, once it doesn't run.
    Wait,
    /// The model that the last solve found.
    Model,
    /// How many learnt clauses there are.
    Known,
    /// The learnt clause of that number, from 1, the oldest first.
    KnownClause(u32),
    /// The variables and clauses of a DIMACS CNF file of these bytes, as plain ones: all of them,
    /// or none where the call is refused.
    LoadCnf(Bytes),
    /// The caller takes its leave.
    Bye,
    /// Shuts the machine: every later call is refused.
    Shut,
    /// A slice of work on a running solve, with the mark at which stops were asked for.
    Work(u64),
}

impl Call {
    ghost use Rattle.gi_model.specs.Fits.{fits};

    /// Whether a caller may make this call: any but a clause under no guard, a solve with no
    /// budget, a payload of more than `MAX_PAYLOAD` bytes, and but `Work`, which the machine's own
    /// workers alone enter.
    pub fn fits(&self) -> bool
        ensures { result ≡ fits self.now }
    {
        match self {
            Call::Solve(0) | Call::Work(_) => false,
            Call::Under(guards, _) => !guards.is_empty(),
            Call::LoadCnf(bytes) => bytes.as_slice().len() <= MAX_PAYLOAD,
            _ => true,
        }
    }
}
