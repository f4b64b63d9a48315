//! Laws over the definitions, each the contract of a function that does nothing.

ghost use Rattle.gi_lit.specs.Laws.{ListsOfValuesSuffice, ConsequencesAreAmong, FailuresAreAmong, ImpliedClausesAreAmong, DerivationsAreSound, ConflictsAreSound, DerivedClausesAreTrue, ClosedListsAreWhole, ClosedListsAreFree, GuardsAreSound, ProblemsRestOnGuards, ClosuresAgree, ConflictsAgree, FreshClausesAreFew};

/// An assignment of n variables is a list of n values. Where literals are of variables from 1 to n,
/// what can be satisfied, what is a consequence, what fails and what is implied is the same over
/// those lists and over all.
pub fn lists_of_values_suffice()
    ensures satisfying { ListsOfValuesSuffice }
    ensures consequences { ConsequencesAreAmong }
    ensures failing { FailuresAreAmong }
    ensures implied { ImpliedClausesAreAmong }
{}

/// Unit closure is sound: what a derivation contains is a consequence of the clauses and of what is
/// given, and where the closure conflicts they fail together.
pub fn unit_closure_is_sound()
    ensures derivations { DerivationsAreSound }
    ensures conflicts { ConflictsAreSound }
{}

/// A clause under whose negation the unit closure conflicts is true wherever the clauses are.
pub fn derived_clauses_are_true()
    ensures { DerivedClausesAreTrue }
{}

/// A list that is closed under the clauses, without opposites, and has what is given, has every
/// literal of every derivation, and then the unit closure doesn't conflict.
pub fn closed_lists_are_whole()
    ensures whole { ClosedListsAreWhole }
    ensures free { ClosedListsAreFree }
{}

/// What fails over the full clauses of a well formed problem under some literals fails over the
/// clauses that are in force under them.
pub fn guards_are_sound()
    ensures { GuardsAreSound }
{}

/// Where a problem is well formed, guards stand negative alone in its full clauses. A clause that
/// is in force is of problem variables, and is a full clause less negative literals of guards that
/// are given; each other full clause has the negative literal of an active guard that isn't given.
pub fn problems_rest_on_guards()
    ensures { ProblemsRestOnGuards }
{}

/// Under literals that may be assumed, the unit closure of the full clauses of a well formed
/// problem and that of its clauses in force have the same problem literals, and the one conflicts
/// exactly where the other does.
pub fn closures_agree()
    ensures literals { ClosuresAgree }
    ensures conflicts { ConflictsAgree }
{}

/// Clauses over n variables, each of them fresh after those before it, are at most 3^n.
pub fn fresh_clauses_are_few()
    ensures { FreshClausesAreFew }
{}
