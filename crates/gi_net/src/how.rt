// How a session ends.

/// How a session ends. A write fault is named before any other cause.
#[derive(Clone, Copy, Debug, PartialEq, Eq)]
pub enum How {
    /// A whole `bye` was answered `bye`; later bytes are left.
    Bye,
    /// The input has ended, and every line was answered.
    Eof,
    /// Memory was wanting; the last answer is `nomem`.
    NoMemory,
    /// A call was refused because the machine is shut or dead, and that is the last answer.
    Dead,
    /// A read failed.
    ReadFault,
    /// A write failed.
    WriteFault,
    /// No call was left for a line, or 2^62 bytes were taken.
    TooMuch,
}
