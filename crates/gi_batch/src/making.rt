// Calls to a machine.
ghost use Rattle.std.specs.Prelude.{◌≡◌, Some, true, MatchResult};
ghost use Rattle.gi_model.specs.Fits.{fits};
ghost use Rattle.gi_batch.specs.Making.{FailsBy, Makes, stop_after};

use crate::answer::Stop;
use gi_model::{Call, Reply};
use gi_net::{Answered, Caller};

/// Makes a call, and goes on unless it has no entry, or its reply is a refusal or want of memory.
pub fn make<C: Caller>(caller: &mut C, call: Call) -> Result<(), Stop>
    requires { fits call ≡ true }
    ensures made { MatchResult result
        (λ done. Makes call (C.answer caller.new) (C.standing caller.old) (C.standing caller.new))
        (λ by. FailsBy by call (C.standing caller.old) (C.standing caller.new)) }
    ensures kept { C.kept caller.old caller.new }
{
    match caller.call(call) {
        Answered::NoMemory => Err(Stop::NoMemory),
        Answered::Spent => Err(Stop::TooMuch),
        Answered::Recorded => match stop_after(caller.reply()) {
            Some(stop) => Err(stop),
            None => Ok(()),
        },
    }
}

// Why it doesn't go on after a reply, if so.
fn stop_after(reply: &Reply) -> Option<Stop>
    ensures { result ≡ stop_after reply.now }
{
    match reply {
        Reply::NoMemory => Some(Stop::NoMemory),
        Reply::Refused(_) => Some(Stop::Denied),
        _ => None,
    }
}
