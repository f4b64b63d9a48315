//! Laws over the definitions: each is the contract of a function that does nothing. All but the
//! last are about the whole legal history of a machine that one caller has asked for the steps of a
//! good file, or for a front of their calls, and that nobody stopped.

ghost use Rattle.gi_batch.specs.Completeness.{UndisturbedIsWhole};
ghost use Rattle.gi_batch.specs.Laws.{AsksAreWritten, CallsAreAnswered, FailuresAreTrue, ModelsAreTrue, UnknownIsSpent};

use gi_dimacs::one_answer;
use gi_lit::laws::fresh_clauses_are_few;
use gi_model::{histories_are_kept, learnt_clauses_are_told};

/// No call is refused, and each is answered as it is meant, unless memory was wanting for it or
/// before.
pub fn calls_are_answered()
    ensures { CallsAreAnswered }
{}

/// A model that is told has the true literal of each variable, under values that satisfy all
/// clauses so far and the assumptions of the solve.
pub fn models_are_true()
    ensures { ModelsAreTrue }
{}

/// Where a wait is answered that there are no values, nothing satisfies all clauses so far and the
/// assumptions of the solve.
pub fn failures_are_true()
    ensures { FailuresAreTrue }
{}

/// Where a wait is answered that it isn't known, the solve has learnt as many clauses as its
/// budget, each of them fresh. So that never comes where the budget is above 3^n, over n variables.
pub fn unknown_is_spent()
    ensures { UnknownIsSpent }
{
    histories_are_kept();
    learnt_clauses_are_told();
    fresh_clauses_are_few();
}

/// At a wait, and at a model, the machine was told the steps of the file up to that solve, and
/// nothing else: so the clauses so far are those that stand before it, and the assumptions are the
/// ask's.
pub fn asks_are_written()
    ensures { AsksAreWritten }
{}

/// Solving that nothing disturbs reads its whole input, and then does all steps of the file that it
/// is, or prints the refusal where it is none. Undisturbed is one in which no count of faults rose,
/// memory was not wanting, fewer than 2^62 bytes were taken, no call was denied, and calls are
/// left.
pub fn undisturbed_is_whole()
    ensures { UndisturbedIsWhole }
{
    one_answer();
}
