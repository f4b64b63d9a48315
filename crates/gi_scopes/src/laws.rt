//! Laws over what contracts see, each the contract of a function that does nothing.

ghost use Rattle.gi_scopes.specs.Laws.{MoreClausesKeepReasons, TestsStayReady, UntestsStayReady};

/// Edits that only add clauses keep the reasons of what is listed.
pub fn more_clauses_keep_reasons()
    ensures { MoreClausesKeepReasons }
{}

/// After a test the conditions of the next one hold, and so they do after scopes are closed.
pub fn tests_stay_ready()
    ensures tests { TestsStayReady }
    ensures untests { UntestsStayReady }
{}
