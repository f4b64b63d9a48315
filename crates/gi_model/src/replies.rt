use crate::refusal::Refusal;
use gi_lit::{Assign, Clauses, Lits, Var};

/// Why a solve ended with neither a model nor a failing set.
#[derive(Clone, Copy, Debug, PartialEq, Eq)]
pub enum Why {
    /// It learnt as many clauses as it was allowed.
    Budget,
    /// It was stopped.
    Stopped,
}

/// How a solve stands. The number is how many clauses it has learnt.
#[derive(Clone, Copy, Debug, PartialEq, Eq)]
pub enum Status {
    Running(u32),
    Paused(u32),
    Sat,
    Unsat,
    Unknown(Why),
}

/// Why a solve's end is unknown: a stop, with the mark that asked for it, or its budget.
#[derive(Clone, Copy, Debug, PartialEq, Eq)]
pub enum Cause {
    Stopped(u64),
    Budget(u32),
}

/// How a solve ended.
#[derive(Debug, Drop)]
pub enum Verdict {
    /// Values of all variables that satisfy the clauses in force and the assumptions.
    Sat(Assign),
    /// Some of the assumptions, with which the clauses in force can't be satisfied.
    Unsat(Lits),
    Unknown(Cause),
}

/// How a slice of work leaves its solve.
#[derive(Debug, Drop)]
pub enum Now {
    Live,
    Ended(Verdict),
}

/// The machine's answer to a call.
#[derive(Debug, Drop)]
pub enum Reply {
    Done,
    /// How many variables there are.
    Vars(u32),
    /// The guard that was handed out.
    Guard(Var),
    /// The literals that unit propagation finds, in the order in which they follow.
    Implied(Lits),
    /// Assumptions with which the clauses in force can't be satisfied.
    Failed(Lits),
    /// The literals from which the literal follows by one clause.
    Reasons(Lits),
    /// The serial of the solve that was started.
    Started(u64),
    Status { serial: u64, status: Status },
    /// What `Wait` answers of a solve without a model: its failing assumptions.
    Unsat { serial: u64, failed: Lits },
    /// The true literal of each problem variable, rising.
    Model(Lits),
    /// How many learnt clauses there are.
    Known(u64),
    /// A learnt clause.
    Clause(Lits),
    /// How many variables and clauses a file had that was loaded.
    LoadedCnf { vars: u32, clauses: u32 },
    Bye,
    /// The clauses that a slice of work learnt, and how it leaves its solve.
    Worked { news: Clauses, now: Now },
    /// There was no running solve to work on.
    Idle,
    Refused(Refusal),
    /// Memory was wanting: the machine is dead from then on.
    NoMemory,
    /// The caller has no call left; no entry of a history has this answer.
    Spent,
}
