//! Laws over what contracts see, each the contract of a function that does nothing.

ghost use Rattle.gi_prop.specs.Laws.{EditsKeepGoes, AttachedClausesAreHeld, AttachedClausesAreWatched, AddedLiteralsAreDerived};

/// A propagator that goes with a store and a trail goes with the store after an edit that changes
/// no clause of a key in use, if each attached key is in use still. Each attached key has a clause,
/// of variables of the trail. It watches two different literals of it, and where one was looked at
/// and is false the clause has a true literal, of a level no higher than the one at which that was
/// looked at; or it waits.
pub fn edits_keep_goes()
    ensures edits { EditsKeepGoes }
    ensures clauses { AttachedClausesAreHeld }
    ensures watched { AttachedClausesAreWatched }
{}

/// What propagation adds to a trail is, behind the literals that were there, a derivation from the
/// attached clauses.
pub fn added_literals_are_derived()
    ensures { AddedLiteralsAreDerived }
{}
