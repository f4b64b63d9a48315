ghost use Rattle.std.specs.Prelude.{◌≡◌, ◌↔◌, false, IsTrue, IfOk, OnOk};
ghost use Rattle.std.specs.List.{list_any};
ghost use Rattle.gi_lit.specs.Problem.{grown, with_clauses};
ghost use Rattle.gi_model.specs.Loads.{loaded, with_file};
ghost use Rattle.gi_model.specs.Refusals.{is_past, some_unusable};
ghost use Rattle.gi_model.specs.Effects.{with_problem};
ghost use Rattle.gi_model.specs.History.{loaded_reply};
ghost use Rattle.gi_reference.specs.Loading.{IsOf};

use crate::machine::Plain;
use crate::replies::is_loaded;
use gi_dimacs::{CnfRead, CnfReader};
use gi_lit::Clauses;
use gi_model::{PayloadCode, Refusal, Reply};
use gi_text::Bytes;
use std::alloc::{AllocError, Global};

/// What a payload says: its variables and clauses, or none and its refusal.
#[derive(Drop)]
pub struct Payload {
    pub vars: u32,
    pub clauses: Clauses,
    pub refused: Option<Refusal>,
}

/// Reads a payload.
pub fn read_payload(alloc: Global, bytes: &Bytes) -> Result<Payload, AllocError>
    ensures { IfOk result (λ payload. IsOf payload (loaded bytes.now)) }
{
    let mut reader = CnfReader::new(alloc);
    reader.feed(bytes.as_slice())?;
    match reader.finish() {
        CnfRead::Value(cnf) => Ok(Payload {
            vars: cnf.vars,
            clauses: cnf.clauses,
            refused: None,
        }),
        CnfRead::Fault(fault) => Ok(Payload {
            vars: 0,
            clauses: Clauses::new(alloc),
            refused: Some(Refusal::Payload {
                line: fault.line,
                gate: 0,
                code: PayloadCode::Cnf(fault.code),
            }),
        }),
        CnfRead::NoMemory => Err(AllocError),
    }
}

impl Plain {
    /// Whether some literal of the payload is neither of a problem variable nor of one that isn't
    /// there yet.
    pub(crate) fn has_unusable(&self, payload: &Payload) -> bool
        ensures { result ≡ list_any (some_unusable self.now.problem) payload.now.clauses }
    {
        self.store.some_have_unusable(&payload.clauses)
    }

    /// Whether the problem would be too great with the payload.
    pub(crate) fn is_past_with(&self, payload: &Payload) -> bool
        ensures { result ≡ is_past (with_clauses payload.now.clauses
            (grown payload.now.vars self.now.problem)) }
    {
        self.store.is_past_with(payload.vars, &payload.clauses)
    }

    /// Whether the answer tells what the payload has.
    pub(crate) fn answers_load(&self, bytes: &Bytes, reply: &Reply) -> Result<bool, AllocError>
        ensures { IfOk result (λ b. IsTrue b ↔ (reply.now ≡ loaded_reply (loaded bytes.now))) }
    {
        let payload = read_payload(self.alloc, bytes)?;
        Ok(is_loaded(reply, payload.vars, payload.clauses.len()))
    }

    /// The variables and clauses of a payload more.
    pub(crate) fn load(&mut self, bytes: &Bytes) -> Result<(), AllocError>
        requires { is_past (with_file (loaded bytes.now) self.old.problem) ≡ false }
        ensures { OnOk result (self.new ≡ with_problem
            (with_file (loaded bytes.now) self.old.problem) self.old) }
    {
        let payload = read_payload(self.alloc, bytes)?;
        self.store.grow(payload.vars);
        self.store.add_all(&payload.clauses)?;
        self.solve.forget();
        Ok(())
    }
}
