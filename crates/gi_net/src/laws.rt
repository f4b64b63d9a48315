// What follows of a session.
ghost use Rattle.gi_outside.specs.World.{World};
ghost use Rattle.gi_net.specs.Laws.{AllowedIsReply};
ghost use Rattle.gi_net.specs.Session.{IsComplete, Session, Undisturbed};
ghost use Rattle.gi_net.specs.Standing.{Standing};
ghost use Rattle.gi_net.specs.declared.how.How.{How};

/// A session that nothing disturbs ends by `Bye` or `Eof`, and every item up to a `bye` or the end
/// is answered. Undisturbed is one in which no count of faults rose, memory was never wanting,
/// fewer than 2^62 bytes were taken, no call was refused because the machine is over, and calls are
/// left.
pub fn undisturbed_is_whole()
    ensures { (old new : World) (before after : Standing) (by : How)
        (s : Session old new before after by) → Undisturbed old new before after by s
        → IsComplete old new before after by s }
{}

/// What a machine's state allows as the reply to a call that fits is a reply that a caller's call
/// may have.
pub fn allowed_is_reply()
    ensures { AllowedIsReply }
{}
