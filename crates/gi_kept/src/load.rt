// What the bytes of a load say.
ghost use Rattle.std.specs.Prelude.{◌≡◌, IfOk};
ghost use Rattle.gi_model.specs.Loads.{file_clauses, file_vars, loaded};

use gi_dimacs::{Cnf, CnfRead, CnfReader};
use gi_lit::Clauses;
use std::alloc::{AllocError, Global};

// The variables and clauses of a payload: none where it is no DIMACS CNF file.
pub fn read_load(alloc: Global, bytes: &[u8]) -> Result<Cnf, AllocError>
    ensures { IfOk result (λ file. (file.vars ≡ file_vars (loaded bytes.now))
        × (file.clauses ≡ file_clauses (loaded bytes.now))) }
{
    let mut reader = CnfReader::new(alloc);
    reader.feed(bytes)?;
    match reader.finish() {
        CnfRead::Value(file) => Ok(file),
        CnfRead::Fault(_) => Ok(Cnf {
            vars: 0,
            clauses: Clauses::new(alloc),
        }),
        CnfRead::NoMemory => Err(AllocError),
    }
}
