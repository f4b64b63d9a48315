// How the server ends.

/// How the server ends.
#[derive(Clone, Copy, Debug, PartialEq, Eq)]
pub enum ServeEnd {
    /// As many connections were served as were wanted, and each line was printed.
    Done,
    /// The door is closed.
    Closed,
    /// The door failed.
    DoorFault,
    /// The line of the last connection could not be printed whole.
    WriteFault,
    /// No room could be opened for the last link.
    NoMemory,
}
