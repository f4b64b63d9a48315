//! Laws of the script: each is the contract of a function that does nothing.
ghost use Rattle.gi_drill.specs.Laws.{ByeIsLast, CallsAloneAreCounted, ClausesAreTaken, FewAreSat, FewAreUnsat, NoneIsRefused, OwnCallsAreAll, PlanSatisfies, ScriptIsRead, ScriptIsShort, SessionsPlay, TalliesGrow, VariablesAreTold};

/// The plan satisfies all clauses.
pub fn plan_satisfies()
    ensures { PlanSatisfies }
{}

/// Each line of the script asks for its call, and the last one alone is `bye`.
pub fn script_is_read()
    ensures read { ScriptIsRead }
    ensures bye { ByeIsLast }
{}

/// The script of n rounds has 607 + 7 n calls, each in a line of at most 100 bytes, its LF among
/// them.
pub fn script_is_short()
    ensures { ScriptIsShort }
{}

/// A session that was given the script and ended by `bye` has made the script's calls, and no
/// answer was want of memory or the refusal of a dead machine. Its calls are all entries without
/// work where no one else has entries.
pub fn sessions_play()
    ensures play { SessionsPlay }
    ensures own { OwnCallsAreAll }
{}

/// A machine that takes the script and doesn't die for want of memory refuses no call, tells 150
/// variables in the end or with a round 151, takes all 600 clauses, has a model at two waits at
/// most, and a failing set at no more waits than there are rounds.
pub fn script_is_taken()
    ensures refused { NoneIsRefused }
    ensures vars { VariablesAreTold }
    ensures clauses { ClausesAreTaken }
    ensures sat { FewAreSat }
    ensures unsat { FewAreUnsat }
{}

/// What is counted of entries is what is counted of those without work.
pub fn calls_alone_are_counted()
    ensures { CallsAloneAreCounted }
{}

/// What was counted of some entries, with one more noted, is the count of all of them.
pub fn tallies_grow()
    ensures { TalliesGrow }
{}
