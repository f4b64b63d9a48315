ghost use Rattle.std.specs.Prelude.{◌≡◌, IfOk};
ghost use Rattle.gi_model.specs.Replies.{verdict_status};

use crate::replies::{Cause, Status, Verdict, Why};
use gi_lit::Assign;
use std::alloc::{AllocError, Global};

impl Verdict {
    /// How a solve stands that ended so.
    pub fn status(&self) -> Status
        ensures { result ≡ verdict_status self.now }
    {
        match self {
            Verdict::Sat(_) => Status::Sat,
            Verdict::Unsat(_) => Status::Unsat,
            Verdict::Unknown(Cause::Stopped(_)) => Status::Unknown(Why::Stopped),
            Verdict::Unknown(Cause::Budget(_)) => Status::Unknown(Why::Budget),
        }
    }

    /// The same again.
    pub fn copy(&self, alloc: Global) -> Result<Verdict, AllocError>
        ensures { IfOk result (λ v. v ≡ self.now) }
    {
        match self {
            Verdict::Sat(values) => Ok(Verdict::Sat(copied_values(alloc, values)?)),
            Verdict::Unsat(failed) => Ok(Verdict::Unsat(failed.copy()?)),
            Verdict::Unknown(cause) => Ok(Verdict::Unknown(*cause)),
        }
    }
}

fn copied_values(alloc: Global, values: &Assign) -> Result<Assign, AllocError>
    ensures { IfOk result (λ a. a ≡ values.now) }
{
    let _len = values.len();
    Ok(Assign::from_vec(Vec::from_slice(alloc, values.as_slice())?))
}
