// Where the passes of served connections go.
ghost use Rattle.std.specs.Prelude.{◌≤◌};
ghost use Rattle.gi_serve.specs.Puts.{Puts};
ghost use Rattle.gi_serve.specs.ShelfState.{ShelfState};

use gi_room::Pass;

/// Where the pass of each connection is put once its session is over.
///
/// The passes that were put there may be told or not. Those that found no place are counted, and
/// the count never falls.
pub trait Shelf {
    /// What is known of the shelf.
    ghost state: { Self → ShelfState };

    /// Puts a pass behind those that are there, where they are told, or drops it and counts it as
    /// lost.
    fn put(&mut self, pass: Pass)
        ensures count { (state self.old).lost ≤ (state self.new).lost }
        ensures does { Puts pass (state self.old) (state self.new) };
}
