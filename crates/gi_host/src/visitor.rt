// A pass of a room, as a session's caller.
ghost use Rattle.std.specs.Prelude.{◌≡◌, ◌≢◌, ◌<◌, true, Some, None, IsSome};
ghost use Rattle.gi_model.specs.Fits.{fits};
ghost use Rattle.gi_net.specs.Calls.{Makes};
ghost use Rattle.gi_host.specs.Visits.{Visits, has_started, once_asked, standing_of, started_by, visit};

use gi_model::{Call, Reply};
use gi_net::{Answered, Caller, allowed_is_reply};
use gi_room::{Pass, Room};
use std::sync::Wait;

/// A pass of a room, as a session's caller: with the reply to its last call, and the serial of the
/// solve that it started last. It keeps nothing else of what it was answered.
#[derive(Drop)]
pub struct Visitor<'a, R: Wait> {
    pub(crate) rt: &'a R,
    pub(crate) room: &'a Room,
    pub(crate) pass: Pass,
    pub(crate) reply: Option<Reply>,
    pub(crate) started: Option<u64>,
    pub ghost of: { pass.place ≡ room.now },
    pub ghost begun: { has_started started pass.history ≡ true },
}

/// Asks for the stop of the solve that was started last, where the call is a stop.
fn ask_first(room: &Room, pass: &mut Pass, started: Option<u64>, call: &Call)
    requires of { pass.old.place ≡ room.now }
    requires begun { has_started started pass.old.history ≡ true }
    ensures { pass.new ≡ once_asked call.now started pass.old }
{
    match call {
        Call::Stop => match started {
            Some(serial) => room.ask_stop(pass, serial),
            None => {}
        },
        _ => {}
    }
}

/// The serial of the solve that was started last, after a call.
fn started_by(call: &Call, reply: &Reply, started: Option<u64>) -> Option<u64>
    ensures { result ≡ started_by call.now reply.now started }
{
    match call {
        Call::Solve(_) => match reply {
            Reply::Started(serial) => Some(*serial),
            _ => started,
        },
        _ => started,
    }
}

/// Makes a call, and keeps its reply. A stop asks for its mark first.
fn make<R: Wait>(
    rt: &R,
    room: &Room,
    pass: &mut Pass,
    kept: &mut Option<Reply>,
    started: &mut Option<u64>,
    call: &Call,
) -> Answered
    requires of { pass.old.place ≡ room.now }
    requires begun { has_started started.old pass.old.history ≡ true }
    requires fits { fits call.now ≡ true }
    ensures made { Makes result call.now kept.new (standing_of pass.old) (standing_of pass.new) }
    ensures never { result ≢ Answered.NoMemory }
    ensures visits { Visits (visit pass.old started.old) (visit pass.new started.new) }
    ensures begun { has_started started.new pass.new.history ≡ true }
{
    if pass.calls_left() == 0 {
        return Answered::Spent;
    }
    allowed_is_reply();
    pass.knows();
    ask_first(room, pass, *started, call);
    match room.call(rt, pass, call) {
        Reply::Spent => Answered::Spent,
        reply => {
            *started = started_by(call, &reply, *started);
            *kept = Some(reply);
            Answered::Recorded
        }
    }
}

impl<'a, R: Wait> Visitor<'a, R> {
    /// A session's caller on this pass of the room. It has started no solve yet.
    pub fn new(rt: &'a R, room: &'a Room, pass: Pass) -> Self
        requires of { pass.place ≡ room.now }
        ensures pass { result.pass ≡ pass }
        ensures fresh { result.started ≡ None }
    {
        Visitor {
            rt,
            room,
            pass,
            reply: None,
            started: None,
        }
    }

    /// The pass, as it is by then.
    pub fn leave(self) -> Pass
        ensures { result ≡ self.entry.pass }
    {
        let Visitor { pass, reply, .. } = self;
        drop(reply);
        pass
    }
}

impl<'a, R: Wait> Caller for Visitor<'a, R> {
    ghost use Rattle.gi_host.specs.Visits.{Visits, standing_of, visit};

    ghost standing = { λ v. standing_of v.pass };

    ghost answer = { λ v. v.reply };

    ghost starved = { λ v. 0 };

    ghost kept = { λ v w. Visits (visit v.pass v.started) (visit w.pass w.started) };

    fn call(&mut self, call: Call) -> Answered {
        make(
            self.rt,
            self.room,
            &mut self.pass,
            &mut self.reply,
            &mut self.started,
            &call,
        )
    }

    fn reply(&self) -> &Reply {
        match &self.reply {
            Some(reply) => reply,
            None => unreachable!(),
        }
    }
}
