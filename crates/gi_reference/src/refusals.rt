ghost use Rattle.std.specs.Prelude.{◌≡◌, ◌↔◌, IsTrue, IfOk};
ghost use Rattle.gi_model.specs.State.{alive};
ghost use Rattle.gi_model.specs.Refusals.{refuses};
ghost use Rattle.gi_reference.specs.Loading.{of_payload};

use crate::loads::read_payload;
use crate::machine::Plain;
use gi_model::{Call, Life, Refusal, refusal_of};
use gi_text::Bytes;
use std::alloc::AllocError;

impl Plain {
    /// Whether it is neither shut nor dead.
    pub(crate) fn is_alive(&self) -> bool
        ensures { IsTrue result ↔ (self.now.life ≡ alive) }
    {
        match self.life {
            Life::Alive => true,
            Life::Shut => false,
            Life::Dead => false,
        }
    }

    /// The refusal that the table names: the first whose condition holds. A payload is read where a
    /// condition speaks of it.
    pub(crate) fn refusal(&self, call: &Call) -> Result<Option<Refusal>, AllocError>
        ensures { IfOk result (λ r. r ≡ refuses self.now call.now) }
    {
        match refusal_of(self, call) {
            Some(refusal) => Ok(Some(refusal)),
            None => match call {
                Call::LoadCnf(bytes) => self.payload_refusal(bytes),
                _ => Ok(None),
            },
        }
    }

    /// The refusal of a load for what its payload says.
    fn payload_refusal(&self, bytes: &Bytes) -> Result<Option<Refusal>, AllocError>
        ensures { IfOk result (λ r. r ≡ of_payload self.now.problem bytes.now) }
    {
        let payload = read_payload(self.alloc, bytes)?;
        if self.has_unusable(&payload) {
            return Ok(Some(Refusal::Lit));
        }
        if self.is_past_with(&payload) {
            return Ok(Some(Refusal::Limit));
        }
        Ok(payload.refused)
    }
}
