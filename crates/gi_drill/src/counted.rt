// A caller whose answers are counted.
ghost use Rattle.std.specs.Prelude.{◌≡◌};
ghost use Rattle.gi_drill.specs.Counted.{tally_since};
ghost use Rattle.gi_net.specs.Leads.{Leads};
ghost use Rattle.gi_net.specs.Over.{Over};
ghost use Rattle.gi_outside.specs.Link.{Rose};

use crate::kind::Kind;
use crate::tally::Tally;
use gi_model::{Call, Reply};
use gi_net::{Answered, Caller, How, serve_calls};
use gi_outside::Link;
use std::alloc::Global;

/// A caller, and what is counted of the answers to its calls. Nothing else of them is stored.
#[derive(Drop)]
pub struct Counted<C> {
    caller: C,
    tally: Tally,
}

impl<C: Caller> Caller for Counted<C> {
    ghost use Rattle.gi_drill.specs.Counted.{Counts};

    ghost standing = { λ v. C.standing v.caller };

    ghost answer = { λ v. C.answer v.caller };

    ghost starved = { λ v. C.starved v.caller };

    ghost kept = { λ v w. Counts (C.standing v.caller) (C.standing w.caller) v.tally w.tally
        × C.kept v.caller w.caller };

    fn call(&mut self, call: Call) -> Answered {
        let kind = Kind::of(&call);
        let answered = self.caller.call(call);
        match answered {
            Answered::Recorded => self.tally.note_reply(kind, self.caller.reply()),
            Answered::NoMemory => {}
            Answered::Spent => {}
        }
        answered
    }

    fn reply(&self) -> &Reply {
        self.caller.reply()
    }
}

/// How a session ended, with its caller, and what is counted of the answers to its calls.
#[derive(Drop)]
pub struct CountedSession<C> {
    pub how: How,
    pub caller: C,
    pub tally: Tally,
}

/// Serves a link as `serve_calls` does, and counts the answers as they come.
pub fn serve_counted<C: Caller, L: Link>(
    alloc: Global,
    caller: C,
    link: &mut L,
) -> CountedSession<C>
    ensures over { Over (L.state link.old) (L.state link.new)
        (C.standing caller) (C.standing result.caller)
        (Rose (C.starved caller) (C.starved result.caller)) result.how }
    ensures led { Leads C.kept caller result.caller }
    ensures tally { result.tally ≡ tally_since (C.standing caller) (C.standing result.caller) }
{
    let mut counted = Counted {
        caller,
        tally: Tally::new(),
    };
    let how = serve_calls(alloc, &mut counted, link);
    let Counted { caller, tally } = counted;
    CountedSession { how, caller, tally }
}
