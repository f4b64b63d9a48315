// One turn of a seat: the wait for it, and how it ends.
ghost use Rattle.std.specs.Prelude.{◌≡◌, ◌≢◌, ◌<◌, [], length, Contains, true};
ghost use Rattle.gi_model.specs.State.{opening, phase_of};
ghost use Rattle.gi_model.specs.Fits.{fits};
ghost use Rattle.gi_model.specs.History.{Step, after_all};
ghost use Rattle.gi_model.specs.declared.phase.Phase.TheVariants as phase;
ghost use Rattle.gi_core.specs.Ending.{IsNews};
ghost use Rattle.gi_turn.specs.Seats.{view_of, IsOf};
ghost use Rattle.gi_room.specs.Hearing.{greatest, Hears};
ghost use Rattle.gi_room.specs.Histories.{history_in, mark_of};
ghost use Rattle.gi_room.specs.Seen.{IsPassView};
ghost use Rattle.gi_room.specs.Turning.{IsInTurn, Waited, Ended, Worked};

use crate::ear::Ear;
use crate::entry::Made;
use crate::phases::number_of;
use crate::shared_core::SharedCore;
use gi_core::Work;
use gi_model::{Call, Reply};
use gi_turn::{Seat, Turnstile};
use std::sync::Wait;

/// Waits for the turn.
pub(crate) fn begin<R: Wait>(
    rt: &R,
    turnstile: &Turnstile<SharedCore>,
    seat: &mut Seat<SharedCore>,
) -> SharedCore
    requires of { IsOf turnstile.now seat.old }
    requires kept { IsPassView (view_of seat.old) }
    requires left { 0 < (view_of seat.old).left }
    ensures of { IsOf turnstile.now seat.new }
    ensures turn { IsInTurn (view_of seat.new) }
    ensures state { result.core ≡ after_all opening (history_in (view_of seat.new).seen) }
    ensures waited { Waited (view_of seat.old) (view_of seat.new) }
    ensures fresh { (view_of seat.new).fresh ≡ [] }
{
    turnstile.enter(rt, seat)
}

/// Ends the turn by the entry of a call that the machine has answered.
pub(crate) fn finish(
    turnstile: &Turnstile<SharedCore>,
    seat: &mut Seat<SharedCore>,
    shared: SharedCore,
    call: &Call,
    reply: &Reply,
)
    requires of { IsOf turnstile.now seat.old }
    requires turn { IsInTurn (view_of seat.old) }
    requires step { Step (after_all opening (history_in (view_of seat.old).seen))
        call.now reply.now shared.core }
    requires mark { mark_of call.now ≢ 0 → Contains (view_of seat.old).fresh (mark_of call.now) }
    ensures of { IsOf turnstile.now seat.new }
    ensures ended { Ended call.now reply.now (view_of seat.old) (view_of seat.new) }
{
    let phase = number_of(shared.core.phase());
    turnstile.leave(seat, shared, &Made { call, reply }, phase);
}

/// The turn of a call.
pub(crate) fn make(
    turnstile: &Turnstile<SharedCore>,
    seat: &mut Seat<SharedCore>,
    shared: SharedCore,
    call: &Call,
) -> Reply
    requires of { IsOf turnstile.now seat.old }
    requires turn { IsInTurn (view_of seat.old) }
    requires state { shared.core ≡ after_all opening (history_in (view_of seat.old).seen) }
    requires fits { fits call.now ≡ true }
    requires wait { call.now ≡ Call.Wait → phase_of shared.core ≢ phase.Live }
    ensures of { IsOf turnstile.now seat.new }
    ensures ended { Ended call.now result (view_of seat.old) (view_of seat.new) }
{
    let mut shared = shared;
    let reply = shared.core.step(call);
    finish(turnstile, seat, shared, call, &reply);
    reply
}

/// A slice of work on the machine, or none where no solve runs, by a brake that looks at STOP.
fn listen(
    turnstile: &Turnstile<SharedCore>,
    seat: &mut Seat<SharedCore>,
    shared: &mut SharedCore,
) -> Work
    requires of { IsOf turnstile.now seat.old }
    requires fresh { (view_of seat.old).fresh ≡ [] }
    ensures of { IsOf turnstile.now seat.new }
    ensures step { Step shared.old.core (Call.Work result.mark) result.reply shared.new.core }
    ensures hears { Hears (view_of seat.old) (view_of seat.new) }
    ensures mark { result.mark ≡ greatest (view_of seat.new).fresh }
    ensures asks { IsNews (length (view_of seat.new).fresh) result.reply }
{
    let mut ear = Ear { turnstile, seat };
    shared.core.work(&mut ear)
}

/// Ends the turn by the entry of a slice of work.
fn finish_work(
    turnstile: &Turnstile<SharedCore>,
    seat: &mut Seat<SharedCore>,
    shared: SharedCore,
    mark: u64,
    reply: &Reply,
)
    requires of { IsOf turnstile.now seat.old }
    requires turn { IsInTurn (view_of seat.old) }
    requires step { Step (after_all opening (history_in (view_of seat.old).seen))
        (Call.Work mark) reply.now shared.core }
    requires mark { mark ≢ 0 → Contains (view_of seat.old).fresh mark }
    ensures of { IsOf turnstile.now seat.new }
    ensures ended { Ended (Call.Work mark) reply.now (view_of seat.old) (view_of seat.new) }
{
    finish(turnstile, seat, shared, &Call::Work(mark), reply);
}

/// The turn of a slice of work, or of none.
pub(crate) fn work(
    turnstile: &Turnstile<SharedCore>,
    seat: &mut Seat<SharedCore>,
    shared: SharedCore,
) -> Reply
    requires of { IsOf turnstile.now seat.old }
    requires turn { IsInTurn (view_of seat.old) }
    requires state { shared.core ≡ after_all opening (history_in (view_of seat.old).seen) }
    requires fresh { (view_of seat.old).fresh ≡ [] }
    ensures of { IsOf turnstile.now seat.new }
    ensures worked { Worked result (view_of seat.old) (view_of seat.new) }
{
    let mut shared = shared;
    let work = listen(turnstile, seat, &mut shared);
    finish_work(turnstile, seat, shared, work.mark, &work.reply);
    work.reply
}
