// A turn: the call that waits for it, and the call that ends it.
ghost use Rattle.std.specs.Prelude.{◌≡◌, ◌≢◌, ℕ, ◌<◌, ◌^◌, [], ◌∷◌, ◌++◌, length, All, None, Some, true, false, Contains};
ghost use Rattle.gi_turn.specs.Entries.{StartsWith, entry_of};
ghost use Rattle.gi_turn.specs.Steps.{HasEntered, HasTurn, IsIdle, IsInTurn};
ghost use Rattle.gi_turn.specs.Views.{KnowsPhases, KnowsMarks, after_publish};

use crate::plays::{Adds, Draw, Look, Publish};
use crate::seat::{Chair, Seat};
use crate::stands::{Entered, Stands};
use crate::turnstile::Turnstile;
use crate::words::{HEAD, TICKET, head, length_in};
use std::marker::Brand;
use std::sync::Wait;

impl<T: Stands> Turnstile<T> {
    ghost use Rattle.gi_turn.specs.Seats.{view_of, IsOf};

    // Looks, and sleeps between looks, until the history is as long as the ticket. The slot comes
    // with the turn.
    fn wait_turn<R: Wait>(&self, rt: &R, chair: &mut Chair<T>, ticket: u64)
        requires table { chair.old.table_id ≡ self.now.table.shared.table_id }
        requires ticket { chair.old.me.0.ticket ≡ Some ticket }
        requires idle { IsIdle chair.old.me }
        ensures table { (chair.new.table_id ≡ chair.old.table_id) × (chair.new.id ≡ chair.old.id) }
        ensures turn { HasTurn T.stands T.may_ask chair.old.me.0 ticket chair.new.me }
    {
        for _ in rt.forever() {
            let head = self.table.shared.load::<Look>(chair, HEAD);
            if length_in(head) == ticket {
                return;
            }
            self.table.shared.park(rt, HEAD, (head % (1 << 32)) as u32);
        }
        unreachable!()
    }

    // Draws one ticket, waits for its turn, and moves the value out of the slot.
    fn draw_and_wait<R: Wait>(&self, rt: &R, chair: &mut Chair<T>) -> (u64, T)
        requires table { chair.old.table_id ≡ self.now.table.shared.table_id }
        requires idle { IsIdle chair.old.me × (chair.old.me.0.ticket ≡ None) }
        requires left { 0 < chair.old.me.0.left }
        ensures table { (chair.new.table_id ≡ chair.old.table_id) × (chair.new.id ≡ chair.old.id) }
        ensures entered { HasEntered T.stands T.may_ask chair.old.me.0 result.1 chair.new.me.0 }
        ensures empty { chair.new.me.1 ≡ (0, None) ∷ [] }
        ensures ticket { (chair.new.me.0.ticket ≡ Some result.0) × (result.0 < 2 ^ 56) }
    {
        let ticket = self.table.shared.fetch_add::<Draw>(chair, TICKET, 1);
        self.wait_turn(rt, chair, ticket);
        let Some(value) = self.table.shared.exchange(chair, 0, None) else {
            unreachable!()
        };
        (ticket, value)
    }

    /// Waits for the turn, and takes the value out. It stands for the whole history, which begins
    /// with what the seat had seen. The seat has a call left and no turn before, and a call less
    /// and the turn after.
    pub fn enter<R: Wait>(&self, rt: &R, seat: &mut Seat<T>) -> T
        requires of { IsOf self.now seat.old }
        requires idle { (view_of seat.old).turn ≡ false }
        requires left { 0 < (view_of seat.old).left }
        ensures of { IsOf self.now seat.new }
        ensures begins { StartsWith (view_of seat.new).seen (view_of seat.old).seen }
        ensures turn { (view_of seat.new).turn ≡ true }
        ensures stands { T.stands result (view_of seat.new).seen }
        ensures phases { KnowsPhases (view_of seat.new) }
        ensures marks { KnowsMarks T.may_ask (view_of seat.new) }
        ensures entered { HasEntered T.stands T.may_ask (view_of seat.old) result
            (view_of seat.new) }
    {
        let (ticket, value) = self.draw_and_wait(rt, &mut seat.chair);
        seat.ticket = ticket;
        seat.left -= 1;
        value
    }

    // The one event of a turn: the history has the entry from here on, and the slot is given back
    // with the value in it.
    fn publish<E: Entered, N: Adds>(&self, chair: &mut Chair<T>, ticket: u64, entry: &E, phase: u8)
        requires table { chair.old.table_id ≡ self.now.table.shared.table_id }
        requires adds { N.entry
            ≡ entry_of chair.old.me.0.number phase (E.mark entry.now) (E.told entry.now) }
        requires turn { IsInTurn chair.old.me ticket }
        requires phase { phase < 8 }
        requires mark { E.mark entry.now ≢ 0 → Contains chair.old.me.0.fresh (E.mark entry.now) }
        requires stands { (t : T) × (chair.old.me.1 ≡ (0, Some t) ∷ [])
            × T.stands t (chair.old.me.0.seen ++ N.entry ∷ []) }
        ensures table { (chair.new.table_id ≡ chair.old.table_id) × (chair.new.id ≡ chair.old.id) }
        ensures published { (chair.new.me.0 ≡ after_publish chair.old.me.0 N.entry)
            × (chair.new.me.1 ≡ []) }
        ensures knows { KnowsPhases chair.new.me.0 × KnowsMarks T.may_ask chair.new.me.0 }
    {
        self.table
            .shared
            .store::<Publish<N>>(chair, HEAD, head(ticket + 1, phase));
    }

    // Moves the value into the slot, publishes the entry, and wakes those who wait.
    fn put_back<E: Entered>(
        &self,
        chair: &mut Chair<T>,
        ticket: u64,
        value: T,
        entry: &E,
        phase: u8,
    )
        requires table { chair.old.table_id ≡ self.now.table.shared.table_id }
        requires turn { IsInTurn chair.old.me ticket × (chair.old.me.1 ≡ (0, None) ∷ []) }
        requires phase { phase < 8 }
        requires mark { E.mark entry.now ≢ 0 → Contains chair.old.me.0.fresh (E.mark entry.now) }
        requires stands { T.stands value (chair.old.me.0.seen
            ++ entry_of chair.old.me.0.number phase (E.mark entry.now) (E.told entry.now) ∷ []) }
        ensures table { (chair.new.table_id ≡ chair.old.table_id) × (chair.new.id ≡ chair.old.id) }
        ensures published { (chair.new.me.0 ≡ after_publish chair.old.me.0
            (entry_of chair.old.me.0.number phase (E.mark entry.now) (E.told entry.now)))
            × (chair.new.me.1 ≡ []) }
        ensures knows { KnowsPhases chair.new.me.0 × KnowsMarks T.may_ask chair.new.me.0 }
    {
        let gone = self.table.shared.exchange(chair, 0, Some(value));
        let None = gone else { unreachable!() };
        self.publish::<E, Brand>(chair, ticket, entry, phase);
        self.table.shared.wake_all(HEAD);
    }

    /// Ends the turn: puts the value back, which stands for the history with the entry added, and
    /// publishes the entry with this phase, below 8. The entry's mark is 0, or the seat saw it in
    /// this turn.
    pub fn leave<E: Entered>(&self, seat: &mut Seat<T>, value: T, entry: &E, phase: u8)
        requires of { IsOf self.now seat.old }
        requires turn { (view_of seat.old).turn ≡ true }
        requires phase { phase < 8 }
        requires mark { E.mark entry.now ≢ 0
            → Contains (view_of seat.old).fresh (E.mark entry.now) }
        requires stands { T.stands value ((view_of seat.old).seen
            ++ entry_of (view_of seat.old).number phase (E.mark entry.now) (E.told entry.now) ∷ []) }
        ensures of { IsOf self.now seat.new }
        ensures published { view_of seat.new ≡ after_publish (view_of seat.old)
            (entry_of (view_of seat.old).number phase (E.mark entry.now) (E.told entry.now)) }
        ensures phases { KnowsPhases (view_of seat.new) }
        ensures marks { KnowsMarks T.may_ask (view_of seat.new) }
    {
        let ticket = seat.ticket;
        self.put_back(&mut seat.chair, ticket, value, entry, phase);
    }
}
