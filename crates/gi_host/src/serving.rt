// One session on a pass.
ghost use Rattle.std.specs.Prelude.{◌≡◌};
ghost use Rattle.gi_host.specs.Hosts.{Serves};

use crate::visitor::Visitor;
use gi_net::{How, serve_calls};
use gi_outside::Link;
use gi_room::{Pass, Room};
use std::alloc::Global;
use std::sync::Wait;

/// How a session ended, and its pass.
#[derive(Drop)]
pub struct SessionEnd {
    pub how: How,
    pub pass: Pass,
}

/// Serves a link on a pass of the room: each of its calls is an entry of the room's one history,
/// and others' entries may stand between. A `stop` line first asks that the solve which the session
/// started last be stopped, so that a slice of work which is under way ends; then it is a call as
/// any other. The session keeps nothing of what it answered but the last reply.
pub fn serve_one<R: Wait, L: Link>(
    rt: &R,
    alloc: Global,
    room: &Room,
    pass: Pass,
    link: &mut L,
) -> SessionEnd
    requires of { pass.place ≡ room.now }
    ensures { Serves (L.state link.old) (L.state link.new) pass result.pass result.how }
{
    let mut visitor = Visitor {
        rt,
        room,
        pass,
        reply: None,
        started: None,
    };
    let how = serve_calls(alloc, &mut visitor, link);
    let Visitor { pass, reply, .. } = visitor;
    drop(reply);
    pass.knows();
    SessionEnd { how, pass }
}
