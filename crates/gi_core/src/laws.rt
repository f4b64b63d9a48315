//! Laws over what the steps of a new machine make, each the contract of a function that does
//! nothing.

ghost use Rattle.gi_core.specs.Laws.{StepsAreLegal, StepsKeep, StepsTell, StepsGiveCleanGuards};

use gi_model::{guards_are_clean, learnt_clauses_are_told};

/// The steps of a new machine are a legal history, and its state is the one after it.
pub fn steps_are_legal()
    ensures { StepsAreLegal }
{}

/// They keep the invariant of all legal histories, and what is learnt is implied.
pub fn steps_keep()
    ensures { StepsKeep }
{}

/// What is learnt is the news of all work in order, less what a start or a drop took away; and what
/// a solve has spent is the number of its news.
pub fn steps_tell()
    ensures { StepsTell }
{
    learnt_clauses_are_told();
}

/// Nothing names a guard that is handed out, also where it was handed out before.
pub fn steps_give_clean_guards()
    ensures { StepsGiveCleanGuards }
{
    guards_are_clean();
}
