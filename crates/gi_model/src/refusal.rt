ghost use Rattle.std.specs.Prelude.{◌≡◌};

use gi_dimacs::CnfCode;

/// What is wrong with a payload.
#[derive(Clone, Copy, Debug, PartialEq, Eq)]
pub enum PayloadCode {
    /// With one of DIMACS CNF.
    Cnf(CnfCode),
}

/// Why a call was refused, in the order in which the conditions are tried; `Long` alone is tried
/// before `Syntax`. A refusal changes nothing.
#[derive(Clone, Copy, Debug, PartialEq, Eq)]
pub enum Refusal {
    /// The line isn't in the grammar.
    Syntax,
    /// The line is too long.
    Long,
    /// The machine is shut, or dead.
    Dead,
    /// The solve doesn't admit the call.
    Busy,
    /// A guard can't be dropped while a scope is open.
    Scoped,
    /// A literal is of a guard.
    Lit,
    /// A named guard isn't active.
    NotGuard,
    /// The guard to drop is assumed.
    Held,
    /// A limit would be passed.
    Limit,
    /// No scope is open.
    NoScope,
    /// No open scope lists the literal.
    NotImplied,
    /// There is no solve.
    NoSolve,
    /// The solve didn't find a model.
    NoModel,
    /// There is no learnt clause of that number.
    NoClause,
    /// The payload isn't in its grammar: its first line that is wrong, counted from 1, and how. The
    /// gate is 0 but for binary circuits.
    Payload {
        line: u64,
        gate: u32,
        code: PayloadCode,
    },
}

impl Refusal {
    ghost use Rattle.gi_model.specs.Number.{refusal_number};

    /// The number that the line protocol gives the refusal.
    pub fn number(&self) -> u8
        ensures { result ≡ refusal_number self.now }
    {
        match self {
            Refusal::Syntax => 1,
            Refusal::Long => 2,
            Refusal::Dead => 3,
            Refusal::Busy => 4,
            Refusal::Scoped => 5,
            Refusal::Lit => 6,
            Refusal::NotGuard => 7,
            Refusal::Held => 8,
            Refusal::Limit => 9,
            Refusal::NoScope => 10,
            Refusal::NotImplied => 11,
            Refusal::NoSolve => 12,
            Refusal::NoModel => 13,
            Refusal::NoClause => 14,
            Refusal::Payload { .. } => 16,
        }
    }
}
