use gi_model::Reply;
use std::alloc::AllocError;
use std::io;

/// Why there is no answer.
#[derive(Debug, Drop)]
pub enum Fault {
    /// Memory was wanting.
    NoMemory,
    /// The solver gave another answer than was asked for.
    Unexpected(Reply),
    /// The solve went on for ever.
    Unended,
    /// Standard output failed.
    Io(io::Error),
}

impl From<AllocError> for Fault {
    fn from(_: AllocError) -> Fault {
        Fault::NoMemory
    }
}

impl From<io::Error> for Fault {
    fn from(error: io::Error) -> Fault {
        Fault::Io(error)
    }
}
