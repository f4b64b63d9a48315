// The room, and what its passes do there.
ghost use Rattle.std.specs.Prelude.{◌≡◌, ◌≢◌, ◌≤◌, ◌<◌, ◌^◌, [], ◌∷◌, ◌++◌, IfOk, MatchOption, MatchBool, length, true};
ghost use Rattle.gi_model.specs.Fits.{fits};
ghost use Rattle.gi_model.specs.State.{phase_of};
ghost use Rattle.gi_room.specs.Histories.{IsStarted};
ghost use Rattle.gi_room.specs.Seen.{new_pass};
ghost use Rattle.gi_room.specs.Calls.{Adds, Calls, Helps, HoldsAsBefore, Joins, KnowsPhases, NeedsNoMemory, Waits, after_ask, glanced, split_left, split_right};
ghost use Rattle.gi_model.specs.declared.phase.Phase.TheVariants as phase;

use crate::pass::Pass;
use crate::phases::phase_of;
use crate::shared_core::SharedCore;
use crate::turn::{begin, make, work};
use gi_core::Core;
use gi_model::{Call, Phase, Reply};
use gi_turn::Turnstile;
use std::alloc::{AllocError, Global};
use std::marker::Model;
use std::sync::Wait;

/// One machine, which passes use in turns, under one history. Any number of threads may share it.
#[derive(Drop)]
pub struct Room {
    turnstile: Turnstile<SharedCore>,
}

impl Model for Room {
    ghost use Rattle.gi_turn.specs.Known.{Place, place_coded, place_at};

    ghost Value = { Place };

    ghost coded = { place_coded };

    ghost view = { λ r. place_at r.turnstile };
}

/// Whether a call is a wait, and a solve is running.
fn must_work(call: &Call, core: &Core) -> bool
    ensures { MatchBool result ((call.now ≡ Call.Wait) × (phase_of core.now ≡ phase.Live))
        (call.now ≡ Call.Wait → phase_of core.now ≢ phase.Live) }
{
    match call {
        Call::Wait => matches!(core.phase(), Phase::Live),
        _ => false,
    }
}

impl Room {
    /// A new machine with no history, and its first pass, which has 2^56 calls left. `AllocError`
    /// comes only where memory ran out.
    pub fn open(alloc: Global) -> Result<(Room, Pass), AllocError>
        ensures { IfOk result (λ r. r.1 ≡ new_pass r.0) }
    {
        let shared = SharedCore {
            core: Core::new(alloc),
        };
        let (turnstile, seat) = Turnstile::open(alloc, shared, 0)?;
        Ok((Room { turnstile }, Pass { seat }))
    }

    // One turn for a call: its own entry, or, for a wait on a running solve, a slice of work.
    fn take_turn<R: Wait>(&self, rt: &R, pass: &mut Pass, call: &Call) -> Option<Reply>
        requires of { pass.old.place ≡ self.now }
        requires fits { fits call.now ≡ true }
        requires left { 0 < pass.old.left }
        ensures { MatchOption result (Waits call.now pass.old pass.new)
            (λ r. Adds call.now r pass.old pass.new) }
    {
        let shared = begin(rt, &self.turnstile, &mut pass.seat);
        if must_work(call, &shared.core) {
            let _reply = work(&self.turnstile, &mut pass.seat, shared);
            return None;
        }
        Some(make(&self.turnstile, &mut pass.seat, shared, call))
    }

    /// Makes a call that fits, waits for its turn, and answers as the machine does. The pass has
    /// then seen the entries that others made meanwhile, and last of all its own, so a glance
    /// before the call is never beyond the history. A wait does slices of work on a solve as long
    /// as it finds one running, each an entry of its own. `Spent` comes exactly where the pass has
    /// no call left for the next entry, and is none. `NoMemory` comes of calls that take memory
    /// alone.
    pub fn call<R: Wait>(&self, rt: &R, pass: &mut Pass, call: &Call) -> Reply
        requires of { pass.old.place ≡ self.now }
        requires fits { fits call.now ≡ true }
        ensures calls { Calls call.now result pass.old pass.new }
        ensures holds { HoldsAsBefore pass.old pass.new }
        ensures memory { NeedsNoMemory call.now → result ≢ Reply.NoMemory }
    {
        pass.knows();
        'turns: loop {
            if pass.calls_left() == 0 {
                return Reply::Spent;
            }
            match self.take_turn(rt, pass, call) {
                Some(reply) => return reply,
                None => {}
            }
        }
    }

    /// One entry of work: a slice, where a solve is running, and else `Idle`. A slice looks for
    /// stops again and again while it goes on, and heeds all that the pass asked. `Spent` comes
    /// exactly where the pass has no call left, and is no entry.
    pub fn help<R: Wait>(&self, rt: &R, pass: &mut Pass) -> Reply
        requires of { pass.old.place ≡ self.now }
        ensures helps { Helps result pass.old pass.new }
        ensures holds { HoldsAsBefore pass.old pass.new }
    {
        let left = pass.calls_left();
        if left == 0 {
            return Reply::Spent;
        }
        let shared = begin(rt, &self.turnstile, &mut pass.seat);
        work(&self.turnstile, &mut pass.seat, shared)
    }

    /// How long the history is now, no less than the pass has seen, and the machine's phase after
    /// so many entries. It waits for nobody.
    pub fn peek(&self, pass: &mut Pass) -> (u64, Phase)
        requires of { pass.old.place ≡ self.now }
        ensures looked { pass.new ≡ glanced pass.old result }
        ensures reaches { length pass.old.history ≤ result.0 }
        ensures phases { KnowsPhases pass.new }
    {
        let (length, number) = self.turnstile.glance(&mut pass.seat);
        (length, phase_of(number))
    }

    /// Asks that the solve of this serial be stopped, which the pass has seen start. It waits for
    /// nobody and takes no memory.
    pub fn ask_stop(&self, pass: &mut Pass, serial: u64)
        requires of { pass.old.place ≡ self.now }
        requires started { IsStarted pass.old.history serial }
        ensures { pass.new ≡ after_ask pass.old serial }
    {
        self.turnstile.raise(&mut pass.seat, serial);
    }

    /// A new pass, with half of the calls left, rounded down, and all that this one has seen; what
    /// was asked stays with this one.
    pub fn split(&self, pass: &mut Pass) -> Pass
        requires of { pass.old.place ≡ self.now }
        ensures left { pass.new ≡ split_left pass.old }
        ensures right { result ≡ split_right pass.old }
    {
        Pass {
            seat: self.turnstile.split(&mut pass.seat),
        }
    }

    /// Takes the other pass in: calls left, numbers and asks come together, and the longer history
    /// stays, which the shorter one begins. Beyond what each has seen it has no entry of that pass.
    pub fn join(&self, into: &mut Pass, other: Pass)
        requires of { (into.old.place ≡ self.now) × (other.place ≡ self.now) }
        ensures { Joins into.old other into.new }
    {
        self.turnstile.join(&mut into.seat, other.seat);
    }
}
