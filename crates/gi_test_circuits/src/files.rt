ghost use Rattle.std.specs.Prelude.{IfOk, IfSome};
ghost use Rattle.gi_circuit.specs.Importable.{IsImportable};

use gi_aiger::{Aig, AigRead, AigReader, said_is_good};
use gi_circuit::good_is_importable;
use std::alloc::{AllocError, Global};

/// What a file says, if it says something.
pub fn value_of(alloc: Global, file: &[u8]) -> Result<Option<Aig>, AllocError>
    ensures { IfOk result (λ value. IfSome value IsImportable) }
{
    said_is_good();
    good_is_importable();
    let mut reader = AigReader::new(alloc);
    reader.feed(file)?;
    match reader.finish() {
        AigRead::Aig(aig) => Ok(Some(aig)),
        AigRead::Fault(_) => Ok(None),
        AigRead::NoMemory => Err(AllocError),
    }
}
