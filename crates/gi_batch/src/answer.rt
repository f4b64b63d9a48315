// How solves end.
use gi_dimacs::CnfFault;

/// What a solve was answered.
#[derive(Clone, Copy, Debug, PartialEq, Eq)]
pub enum Answer {
    /// There are values that satisfy the clauses and the assumptions.
    Sat,
    /// There are none.
    Unsat,
    /// The budget was spent.
    Unknown,
}

/// Why not all solves of a file were answered.
#[derive(Clone, Copy, Debug, PartialEq, Eq)]
pub enum Stop {
    /// Memory was wanting.
    NoMemory,
    /// A write failed.
    WriteFault,
    /// No call was left.
    TooMuch,
    /// The machine refused a call, or answered otherwise than the call is.
    Denied,
}

/// How solving a file ends.
#[derive(Clone, Copy, Debug, PartialEq, Eq)]
pub enum Solved {
    /// All solves were answered, the last one that there are values.
    Sat,
    /// All solves were answered, the last one that there are none.
    Unsat,
    /// All solves were answered, the last one not within its budget; or there was none.
    Unknown,
    /// The input is no file of the form: this is its first fault, whose refusal was written. No
    /// call was made.
    Refused(CnfFault),
    /// Memory was wanting: for the input, for a call's entry, or for the machine.
    NoMemory,
    /// A read failed. No call was made.
    ReadFault,
    /// A write failed, and the output lacks its last byte at least.
    WriteFault,
    /// 2^62 bytes were taken, or no call was left.
    TooMuch,
    /// The machine refused a call, or answered otherwise than the call is.
    Denied,
}
