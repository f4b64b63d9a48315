// The turnstile, and the calls that wait for nobody.
ghost use Rattle.std.specs.Prelude.{◌≡◌, ℕ, ◌<◌, ◌≤◌, [], length, false, Contains, IfOk};
ghost use Rattle.gi_turn.specs.Entries.{StartsWith};
ghost use Rattle.gi_turn.specs.Views.{first_view, after_look, after_ask, after_see, after_split, split_off, join_of, KnowsPhases, KnowsMarks, OwnSeen};

use crate::plays::{Ask, Glance, Halves, See, Settle};
use crate::rule::InTurn;
use crate::seat::Seat;
use crate::stands::Stands;
use crate::view::View;
use crate::words::{HEAD, STOP, TICKET, head, length_in, phase_in};
use atomic_table::Table;
use std::alloc::{AllocError, Global};

const ALL_CALLS: u64 = 1 << 56;

/// One value that seats use in turns.
#[derive(Drop)]
pub struct Turnstile<T: Stands> {
    pub(crate) table: Table<Option<T>, View, u64, InTurn, Global>,
    ghost counts: { (table.shared.table_id.words ≡ 3) × (table.shared.table_id.slots ≡ 1) },
}

impl<T: Stands> Turnstile<T> {
    ghost use Rattle.gi_turn.specs.Seats.{view_of, IsOf};

    /// A turnstile round the value, with an empty history and this phase, below 8, and its first
    /// seat, which has 2^56 calls left.
    /// `AllocError` comes only where memory ran out, and the value is dropped then.
    pub fn open(alloc: Global, value: T, phase: u8) -> Result<(Turnstile<T>, Seat<T>), AllocError>
    where
        T: Drop,
        requires phase { phase < 8 }
        requires stands { T.stands value [] }
        ensures of { IfOk result (λ r. IsOf r.0 r.1) }
        ensures seat { IfOk result (λ r. view_of r.1 ≡ first_view phase) }
    {
        let mut slots = Vec::new(alloc);
        slots.push(Some(value))?;
        let first = u64::from(phase);
        match Table::new(alloc, &[0, head(0, phase), 0], slots, &first) {
            Ok((table, chair)) => Ok((
                Turnstile { table },
                Seat {
                    chair,
                    ticket: 0,
                    left: ALL_CALLS,
                },
            )),
            Err(refused) => {
                drop(refused);
                Err(AllocError)
            }
        }
    }

    /// The length of the history now, which is no less than the seat has seen, and its phase, below
    /// 8.
    pub fn glance(&self, seat: &mut Seat<T>) -> (u64, u8)
        requires of { IsOf self.now seat.old }
        ensures of { IsOf self.now seat.new }
        ensures looked { view_of seat.new ≡ after_look (view_of seat.old) result }
        ensures reaches { (length (view_of seat.old).seen ≤ result.0) × (result.1 < 8) }
        ensures phases { KnowsPhases (view_of seat.new) }
    {
        let head = self.table.shared.load::<Glance>(&mut seat.chair, HEAD);
        (length_in(head), phase_in(head))
    }

    /// Asks for the mark: from now on each `see` gives no less.
    pub fn raise(&self, seat: &mut Seat<T>, mark: u64)
        requires of { IsOf self.now seat.old }
        requires may { T.may_ask (view_of seat.old).seen mark }
        ensures of { IsOf self.now seat.new }
        ensures asked { view_of seat.new ≡ after_ask (view_of seat.old) mark }
    {
        self.table
            .shared
            .fetch_max::<Ask>(&mut seat.chair, STOP, mark);
    }

    /// The greatest mark that was asked, which is no less than any that the seat asked. 0: none
    /// was.
    pub fn see(&self, seat: &mut Seat<T>) -> u64
        requires of { IsOf self.now seat.old }
        ensures of { IsOf self.now seat.new }
        ensures seen { view_of seat.new ≡ after_see (view_of seat.old) result }
        ensures asked { (mark l : ℕ) → Contains (view_of seat.old).asked (mark, l) → mark ≤ result }
    {
        self.table.shared.load::<See>(&mut seat.chair, STOP)
    }

    /// A new seat, with half of the calls left, rounded down, and all that this one has seen.
    pub fn split(&self, seat: &mut Seat<T>) -> Seat<T>
        requires of { IsOf self.now seat.old }
        requires idle { (view_of seat.old).turn ≡ false }
        ensures of { IsOf self.now seat.new × IsOf self.now result }
        ensures left { view_of seat.new ≡ after_split (view_of seat.old) }
        ensures right { view_of result ≡ split_off (view_of seat.old) }
    {
        let chair = self.table.shared.split_seat::<Halves>(&mut seat.chair);
        let half = seat.left / 2;
        seat.left -= half;
        Seat {
            chair,
            ticket: 0,
            left: half,
        }
    }

    /// Takes the other seat in: the calls left add up, and the longer history stays, which begins
    /// with the shorter one. It has no entry of a number that one of the two held, beyond what that
    /// one had seen.
    pub fn join(&self, into: &mut Seat<T>, other: Seat<T>)
        requires of { IsOf self.now into.old × IsOf self.now other }
        requires idle { ((view_of into.old).turn ≡ false) × ((view_of other).turn ≡ false) }
        ensures of { IsOf self.now into.new }
        ensures joined { view_of into.new ≡ join_of (view_of into.old) (view_of other) }
        ensures one { StartsWith (view_of into.new).seen (view_of into.old).seen
            × StartsWith (view_of into.new).seen (view_of other).seen }
        ensures own { OwnSeen (view_of into.old) (view_of into.new).seen
            × OwnSeen (view_of other) (view_of into.new).seen }
        ensures phases { KnowsPhases (view_of into.new) }
        ensures marks { KnowsMarks T.may_ask (view_of into.new) }
    {
        let Seat {
            chair,
            ticket: _,
            left,
        } = other;
        self.table
            .shared
            .join_seat::<Halves>(&mut into.chair, chair);
        // By this load the seat learns that the sum is in range, and that both histories are
        // beginnings of one.
        self.table.shared.load::<Settle>(&mut into.chair, TICKET);
        into.left += left;
    }
}
