//! What a file says.

ghost use Rattle.std.specs.Prelude.{◌≡◌};
ghost use Rattle.gi_dimacs.specs.Answers.{AnswersCnf};
ghost use Rattle.gi_model.specs.declared.refusal.PayloadCode.TheVariants as wrong;
ghost use Rattle.gi_model.specs.declared.refusal.Refusal.TheVariants as refusal;

use gi_dimacs::{CnfFault, CnfRead, CnfReader};
use gi_model::{PayloadCode, Refusal};
use std::alloc::Global;

/// What the bytes are as a DIMACS CNF file.
pub fn read_cnf(alloc: Global, bytes: &[u8]) -> CnfRead
    ensures { AnswersCnf result bytes.now }
{
    let mut reader = CnfReader::new(alloc);
    match reader.feed(bytes) {
        Ok(()) => reader.finish(),
        Err(_) => CnfRead::NoMemory,
    }
}

/// The refusal that tells a file's first fault.
pub fn refusal_of_fault(fault: CnfFault) -> Refusal
    ensures { result ≡ refusal.Payload fault.line 0 (wrong.Cnf fault.code) }
{
    Refusal::Payload {
        line: fault.line,
        gate: 0,
        code: PayloadCode::Cnf(fault.code),
    }
}
