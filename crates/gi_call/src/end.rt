// How a client ends.

/// How a client ends. A write fault is named before any other cause.
#[derive(Clone, Copy, Debug, PartialEq, Eq)]
pub enum CallEnd {
    /// `bye` was answered `bye`, or the user's input has ended and every item was answered.
    Done,
    /// The server's line of this number, from 1, is not an answer that its call can have, or it has
    /// more than 1,073,741,824 bytes.
    BadReply(u64),
    /// The server's line of this number is a model that isn't true to what is kept. It was not
    /// printed.
    FalseModel(u64),
    /// The server ended before it answered.
    Early,
    /// A read failed, from the user or from the server.
    ReadFault,
    /// A write failed, to the user or to the server.
    WriteFault,
    /// Memory was wanting.
    NoMemory,
    /// One of the links gave 2^62 bytes.
    TooMuch,
}
