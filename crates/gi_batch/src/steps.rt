// The steps of a file.
ghost use Rattle.std.specs.Prelude.{◌≡◌, ◌≤◌, ◌∷◌, [], ℕ, Some, map, MatchResult};
ghost use Rattle.gi_outside.specs.World.{World};
ghost use Rattle.gi_batch.specs.declared.answer.Answer.{Answer};
ghost use Rattle.gi_batch.specs.Steps.{cnf_steps, icnf_steps, item_steps, Clause, Solve};
ghost use Rattle.gi_batch.specs.Output.{answer_of};
ghost use Rattle.gi_batch.specs.Done.{Goes, IsBegun, IsDone};
ghost use Rattle.gi_batch.specs.Showing.{Prints, PrintsNot, Shows, ShowsModel, ShowsNoModel, ShowsNot};
ghost use Rattle.gi_model.specs.History.{Entry};
ghost use Rattle.gi_net.specs.Leads.{Leads};
ghost use Rattle.gi_model.specs.declared.calls.Call.TheVariants as call;

use crate::answer::{Answer, Stop};
use crate::making::make;
use crate::printing::{print_answer, print_model};
use gi_dimacs::{Cnf, Icnf, Item};
use gi_lit::{Clauses, Lits};
use gi_model::{Call, Reply, Status};
use gi_net::Caller;
use gi_outside::{Link, Sent};

/// Does the steps of a CNF file. The answer is that of its solve.
pub fn solve_cnf<C: Caller, L: Link>(
    cnf: Cnf,
    budget: u32,
    caller: &mut C,
    user: &mut L,
) -> Result<Answer, Stop>
    requires { 1 ≤ budget }
    ensures goes { (before : Answer)
        → Goes result budget (cnf_steps cnf) (L.state user.old) (L.state user.new)
        (C.standing caller.old) (C.standing caller.new) before }
    ensures led { Leads C.kept caller.old caller.new }
{
    let Cnf { vars, clauses } = cnf;
    make(caller, Call::Vars(vars))?;
    add_clauses(clauses, caller)?;
    solve_now(budget, caller, user)
}

// Adds clauses, in order.
fn add_clauses<C: Caller>(clauses: Clauses, caller: &mut C) -> Result<(), Stop>
    ensures added { MatchResult result
        (λ done. (budget : ℕ) (v : World) (before : Answer) → IsDone budget (map Clause clauses) v v (C.standing caller.old) (C.standing caller.new) before before)
        (λ by. (budget : ℕ) (v : World) → IsBegun by budget (map Clause clauses) v v (C.standing caller.old) (C.standing caller.new)) }
    ensures led { Leads C.kept caller.old caller.new }
{
    for clause in clauses.into_vec() {
        make(caller, Call::Add(clause))?;
    }
    Ok(())
}

/// Does the steps of an iCNF file. The answer is that of its last solve, or unknown where it has
/// none.
pub fn solve_icnf<C: Caller, L: Link>(
    icnf: &Icnf,
    budget: u32,
    caller: &mut C,
    user: &mut L,
) -> Result<Answer, Stop>
    requires { 1 ≤ budget }
    ensures goes { Goes result budget (icnf_steps icnf.now) (L.state user.old) (L.state user.new)
        (C.standing caller.old) (C.standing caller.new) Answer.Unknown }
    ensures led { Leads C.kept caller.old caller.new }
{
    let mut last = Answer::Unknown;
    for item in icnf.items.as_slice() {
        last = do_item(item, last, budget, caller, user)?;
    }
    Ok(last)
}

// Does the steps of an item.
fn do_item<C: Caller, L: Link>(
    item: &Item,
    last: Answer,
    budget: u32,
    caller: &mut C,
    user: &mut L,
) -> Result<Answer, Stop>
    requires { 1 ≤ budget }
    ensures goes { Goes result budget (item_steps item.now) (L.state user.old) (L.state user.new)
        (C.standing caller.old) (C.standing caller.new) last }
    ensures led { Leads C.kept caller.old caller.new }
{
    match item {
        Item::Clause(clause) => {
            make(caller, Call::Add(copy(clause)?))?;
            Ok(last)
        }
        Item::Ask(lits) => {
            make(caller, Call::Assume(copy(lits)?))?;
            solve_now(budget, caller, user)
        }
    }
}

// The same list again.
fn copy(lits: &Lits) -> Result<Lits, Stop>
    ensures { MatchResult result (λ copy. copy ≡ lits.now) (λ by. by ≡ Stop.NoMemory) }
{
    match lits.copy() {
        Ok(copy) => Ok(copy),
        Err(_) => Err(Stop::NoMemory),
    }
}

// Solves with the budget, waits for the answer, prints it, and the model where there is one.
fn solve_now<C: Caller, L: Link>(budget: u32, caller: &mut C, user: &mut L) -> Result<Answer, Stop>
    requires { 1 ≤ budget }
    ensures goes { (before : Answer)
        → Goes result budget (Solve ∷ []) (L.state user.old) (L.state user.new)
        (C.standing caller.old) (C.standing caller.new) before }
    ensures led { Leads C.kept caller.old caller.new }
{
    make(caller, Call::Solve(budget))?;
    make(caller, Call::Wait)?;
    match answer_in(caller.reply()) {
        None => Err(Stop::Denied),
        Some(answer) => {
            show(answer, caller, user)?;
            Ok(answer)
        }
    }
}

// Prints an answer, and the model where there is one.
fn show<C: Caller, L: Link>(answer: Answer, caller: &mut C, user: &mut L) -> Result<(), Stop>
    ensures shown { (wait : Entry) → wait.call ≡ call.Wait → answer_of wait.reply ≡ Some answer
        → MatchResult result (λ done. Shows wait (L.state user.old) (L.state user.new)
        (C.standing caller.old) (C.standing caller.new))
        (λ by. ShowsNot by wait (L.state user.old) (L.state user.new) (C.standing caller.old) (C.standing caller.new)) }
    ensures led { Leads C.kept caller.old caller.new }
{
    match print_answer(answer, user) {
        Sent::Failed => return Err(Stop::WriteFault),
        Sent::Done => {}
    }
    match answer {
        Answer::Sat => show_model(caller, user),
        Answer::Unsat => Ok(()),
        Answer::Unknown => Ok(()),
    }
}

// Asks for the model, and prints it.
fn show_model<C: Caller, L: Link>(caller: &mut C, user: &mut L) -> Result<(), Stop>
    ensures shown { MatchResult result
        (λ done. ShowsModel (L.state user.old) (L.state user.new) (C.standing caller.old)
        (C.standing caller.new))
        (λ by. ShowsNoModel by (L.state user.old) (L.state user.new) (C.standing caller.old) (C.standing caller.new)) }
    ensures led { Leads C.kept caller.old caller.new }
{
    make(caller, Call::Model)?;
    print_reply(caller.reply(), user)
}

// Prints a model.
fn print_reply<L: Link>(reply: &Reply, user: &mut L) -> Result<(), Stop>
    ensures { MatchResult result (λ done. Prints reply.now (L.state user.old) (L.state user.new))
        (λ by. PrintsNot by reply.now (L.state user.old) (L.state user.new)) }
{
    match reply {
        Reply::Model(literals) => match print_model(literals.as_slice(), user) {
            Sent::Done => Ok(()),
            Sent::Failed => Err(Stop::WriteFault),
        },
        _ => Err(Stop::Denied),
    }
}

// The answer that a wait was given, where it is one.
fn answer_in(reply: &Reply) -> Option<Answer>
    ensures { result ≡ answer_of reply.now }
{
    match reply {
        Reply::Status {
            serial: _,
            status: Status::Sat,
        } => Some(Answer::Sat),
        Reply::Status {
            serial: _,
            status: Status::Unknown(_),
        } => Some(Answer::Unknown),
        Reply::Unsat { .. } => Some(Answer::Unsat),
        _ => None,
    }
}
