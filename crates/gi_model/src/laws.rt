//! Laws over the definitions: each is the contract of a function that does nothing.

ghost use Rattle.gi_model.specs.Laws.{HistoriesAreKept, KnownIsImplied, KnownIsTold, SpentIsTold, GuardsAreClean, ReasonsShow, RefusalsAreNamed, IsNeverAnswered, CallsMayCome, HistoriesGoOn, StatesGoOn};
ghost use Rattle.gi_model.specs.Bound.{SolvesAreShort};
ghost use Rattle.gi_model.specs.declared.replies.Reply.TheVariants as reply;
ghost use Rattle.gi_model.specs.declared.refusal.Refusal.TheVariants as refusal;

/// Every legal history keeps the machine's invariant, and all that it has learnt is implied.
pub fn histories_are_kept()
    ensures kept { HistoriesAreKept }
    ensures implied { KnownIsImplied }
{}

/// What was learnt is the news of all work in order, less what a start or a drop took away; and
/// what a solve has spent is the number of its news.
pub fn learnt_clauses_are_told()
    ensures known { KnownIsTold }
    ensures spent { SpentIsTold }
{}

/// Nothing names a guard that is handed out.
pub fn guards_are_clean()
    ensures { GuardsAreClean }
{}

/// The reasons of a literal show it.
pub fn reasons_show()
    ensures { ReasonsShow }
{}

/// Entries have the refusals that the table names, and neither `Syntax`, `Long` nor `Spent`.
pub fn refusals_are_named()
    ensures named { RefusalsAreNamed }
    ensures syntax { IsNeverAnswered (reply.Refused refusal.Syntax) }
    ensures long { IsNeverAnswered (reply.Refused refusal.Long) }
    ensures spent { IsNeverAnswered reply.Spent }
{}

/// Which calls may come.
pub fn calls_may_come()
    ensures { CallsMayCome }
{}

/// A legal history grows by one entry at a time.
pub fn histories_go_on()
    ensures legal { HistoriesGoOn }
    ensures state { StatesGoOn }
{}

/// While no edit is accepted a solve over n variables learns at most 3^n clauses, to its end; at
/// most 3^n slices of work leave it live; and with a greater budget it never ends for want of
/// budget.
pub fn solves_are_short()
    ensures { SolvesAreShort }
{}
