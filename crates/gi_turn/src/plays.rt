// The kinds of step. Each is one atomic operation, and tells its seat so much.
ghost use Rattle.std.specs.Prelude.{[]};
ghost use Rattle.gi_turn.specs.declared.view.Entry.{Entry};
ghost use Rattle.gi_turn.specs.Entries.{entry_of};
ghost use Rattle.gi_turn.specs.Steps.{Draws, Looks, Glances, Publishes, Asks, Sees, Settles};
ghost use Rattle.gi_turn.specs.Views.{after_split, split_off, after_join, spent_view};

use crate::stands::Stands;
use crate::view::View;
use atomic_table::{Join, Play, Split};
use std::marker::{Brand, PhantomData};

/// A fetch-and-add of 1 on TICKET.
pub(crate) struct Draw;

impl<T> Play<Option<T>, View> for Draw {
    ghost then = { Draws };
}

/// A load of HEAD by a seat that waits for its turn.
pub(crate) struct Look;

impl<T: Stands> Play<Option<T>, View> for Look {
    ghost then = { Looks T.stands T.may_ask };
}

/// A load of HEAD by a seat that does not wait.
pub(crate) struct Glance;

impl<T> Play<Option<T>, View> for Glance {
    ghost then = { Glances };
}

/// Which entry a publish adds. Each call picks it.
pub(crate) trait Adds {
    ghost entry: { Entry };
}

impl Adds for Brand {
    ghost entry = { entry_of 0 0 0 [] };
}

/// A store to HEAD by the seat whose turn it is, with the value back in the slot.
pub(crate) struct Publish<N> {
    adds: PhantomData<N>,
}

impl<T: Stands, N: Adds> Play<Option<T>, View> for Publish<N> {
    ghost then = { Publishes T.may_ask N.entry };
}

/// A fetch-and-maximum on STOP.
pub(crate) struct Ask;

impl<T> Play<Option<T>, View> for Ask {
    ghost then = { Asks };
}

/// A load of STOP.
pub(crate) struct See;

impl<T> Play<Option<T>, View> for See {
    ghost then = { Sees };
}

/// How a seat splits, and how two are joined, each with a load of TICKET.
pub(crate) struct Halves;

impl Split<View> for Halves {
    ghost left = { after_split };

    ghost right = { split_off };
}

impl Join<View> for Halves {
    ghost both = { after_join };

    ghost spent = { spent_view };
}

/// A load of TICKET right after a join, by which the seat learns that both histories are beginnings
/// of one.
pub(crate) struct Settle;

impl<T: Stands> Play<Option<T>, View> for Settle {
    ghost then = { Settles T.may_ask };
}
