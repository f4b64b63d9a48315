// Files, solved.
ghost use Rattle.std.specs.Prelude.{◌≡◌, ◌≤◌};
ghost use Rattle.gi_net.specs.Leads.{Leads};
ghost use Rattle.gi_batch.specs.Solves.{PrintsRefusal, Solves, solved_of};

use crate::answer::{Answer, Solved, Stop};
use crate::file_steps::FileSteps;
use gi_dimacs::{Cnf, CnfFault, Icnf};
use gi_files::{FileInput, Form, read_file, write_refused};
use gi_net::Caller;
use gi_outside::{Link, Sent};
use std::alloc::Global;

/// Reads a file to its end, makes the calls of its solves, and prints the answer of each before the
/// next is begun.
///
/// For CNF these are the variables, each clause in order, and one solve; for iCNF, item by item, a
/// clause, or an ask's assumptions and a solve. A solve has the budget, is waited for, and asks for
/// the model where there is one. It prints
/// `s SATISFIABLE` and the model's literals in `v` lines, `s UNSATISFIABLE` or `s UNKNOWN`. An input that is refused prints
/// `refused LINE CODE`. The budget is at least 1.
///
/// `ReadFault` and `WriteFault` come only where that count of the link rose, `TooMuch` only after 2^62 bytes or where no call
/// was left for the next one, and `Denied` only where the last call was refused or answered
/// otherwise than it is. Whatever the end, the calls that were made are a front of those of the
/// file, and their output was written, but for `WriteFault`. The caller was led on by those calls
/// alone.
pub fn solve<C: Caller, L: Link>(
    alloc: Global,
    form: Form,
    budget: u32,
    caller: &mut C,
    user: &mut L,
) -> Solved
    requires { 1 ≤ budget }
    ensures solves { Solves result form budget (L.state user.old) (L.state user.new)
        (C.standing caller.old) (C.standing caller.new) }
    ensures led { Leads C.kept caller.old caller.new }
{
    match form {
        Form::Cnf => solve_file::<Cnf, C, L>(alloc, budget, caller, user),
        Form::Icnf => solve_file::<Icnf, C, L>(alloc, budget, caller, user),
    }
}

// Solves a file that should say such a value.
fn solve_file<V: FileSteps, C: Caller, L: Link>(
    alloc: Global,
    budget: u32,
    caller: &mut C,
    user: &mut L,
) -> Solved
    requires { 1 ≤ budget }
    ensures solves { Solves result V.form budget (L.state user.old) (L.state user.new)
        (C.standing caller.old) (C.standing caller.new) }
    ensures led { Leads C.kept caller.old caller.new }
{
    match read_file::<V, L>(alloc, user) {
        FileInput::Value(value) => solved(value.solve(budget, caller, user)),
        FileInput::Refused(fault) => refuse(fault, user),
        FileInput::NoMemory => Solved::NoMemory,
        FileInput::ReadFault => Solved::ReadFault,
        FileInput::TooMuch => Solved::TooMuch,
    }
}

// The end that tells what came of a file's steps.
fn solved(came: Result<Answer, Stop>) -> Solved
    ensures { result ≡ solved_of came }
{
    match came {
        Ok(Answer::Sat) => Solved::Sat,
        Ok(Answer::Unsat) => Solved::Unsat,
        Ok(Answer::Unknown) => Solved::Unknown,
        Err(Stop::NoMemory) => Solved::NoMemory,
        Err(Stop::WriteFault) => Solved::WriteFault,
        Err(Stop::TooMuch) => Solved::TooMuch,
        Err(Stop::Denied) => Solved::Denied,
    }
}

// Prints the refusal of an input.
fn refuse<L: Link>(fault: CnfFault, user: &mut L) -> Solved
    ensures { PrintsRefusal result fault (L.state user.old) (L.state user.new) }
{
    match write_refused(fault, user) {
        Sent::Done => Solved::Refused(fault),
        Sent::Failed => Solved::WriteFault,
    }
}
