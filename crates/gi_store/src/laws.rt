//! Laws over what contracts see, each the contract of a function that does nothing.

ghost use Rattle.gi_store.specs.Laws.{PlainIsAdded, GroupIsAdded, LearntIsAdded, GuardIsMade, GuardIsDropped, OldestAreDropped, EntriesAreClauses, EntriesAreLeft};

/// What the edits of a store are to its problem and its learnt clauses, that all that is stored are
/// their clauses, in order, and that without a guard what names it is gone and nothing else.
pub fn edits_are_of_the_problem()
    ensures plain { PlainIsAdded }
    ensures group { GroupIsAdded }
    ensures learnt { LearntIsAdded }
    ensures made { GuardIsMade }
    ensures dropped { GuardIsDropped }
    ensures oldest { OldestAreDropped }
    ensures clauses { EntriesAreClauses }
    ensures left { EntriesAreLeft }
{}
