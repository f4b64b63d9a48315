// What a reader answers.
use crate::aig::Aig;
use crate::fault::AigFault;

/// What the bytes of a file are.
#[derive(Drop)]
pub enum AigRead {
    Aig(Aig),
    /// The first fault.
    Fault(AigFault),
    NoMemory,
}
