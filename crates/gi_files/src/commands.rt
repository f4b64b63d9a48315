// Commands over a whole input.
ghost use Rattle.gi_files.specs.Commands.{Does};
ghost use Rattle.gi_files.specs.Printing.{PrintsRefusal};
ghost use Rattle.gi_files.specs.declared.command.Command.TheVariants.{Check, Convert};

use crate::command::Command;
use crate::form::Form;
use crate::form_value::FormValue;
use crate::reading::{FileInput, read_file};
use crate::refusals::write_refused;
use gi_dimacs::{Cnf, CnfFault, Icnf};
use gi_outside::{Link, Sent};
use std::alloc::Global;

/// How a command over an input ends.
#[derive(Clone, Copy, Debug, PartialEq, Eq)]
pub enum Done {
    /// The input is of the form, and its output was written.
    Accepted,
    /// It is not: this is its first fault, whose refusal was written.
    Refused(CnfFault),
    /// Memory was wanting. Nothing was written.
    NoMemory,
    /// A read failed. Nothing was written.
    ReadFault,
    /// A write failed, and the output lacks its last byte at least.
    WriteFault,
    /// 2^62 bytes were taken, and no end came. Nothing was written.
    TooMuch,
}

/// Reads the input to its end and prints one line: the counts of its value, `cnf V C` or `icnf V C
/// A` with variables, clauses and asks, or `refused LINE CODE` for its first fault. `ReadFault` and
/// `WriteFault` come only where that count of the link rose, and `TooMuch` only after 2^62 bytes.
pub fn check<L: Link>(alloc: Global, form: Form, user: &mut L) -> Done
    ensures { Does Check form result (L.state user.old) (L.state user.new) }
{
    answer(alloc, Command::Check, form, user)
}

/// Reads the input to its end and prints the canonical text of its value, or `refused LINE CODE`
/// for its first fault. The answers are those of `check`.
pub fn convert<L: Link>(alloc: Global, form: Form, user: &mut L) -> Done
    ensures { Does Convert form result (L.state user.old) (L.state user.new) }
{
    answer(alloc, Command::Convert, form, user)
}

fn answer<L: Link>(alloc: Global, command: Command, form: Form, user: &mut L) -> Done
    ensures { Does command form result (L.state user.old) (L.state user.new) }
{
    match form {
        Form::Cnf => answer_as::<Cnf, L>(alloc, command, user),
        Form::Icnf => answer_as::<Icnf, L>(alloc, command, user),
    }
}

// The answer to an input that should say such a value.
fn answer_as<V: FormValue, L: Link>(alloc: Global, command: Command, user: &mut L) -> Done
    ensures { Does command V.form result (L.state user.old) (L.state user.new) }
{
    match read_file::<V, L>(alloc, user) {
        FileInput::Value(value) => value.print(alloc, command, user),
        FileInput::Refused(fault) => refuse(fault, user),
        FileInput::NoMemory => Done::NoMemory,
        FileInput::ReadFault => Done::ReadFault,
        FileInput::TooMuch => Done::TooMuch,
    }
}

fn refuse<L: Link>(fault: CnfFault, user: &mut L) -> Done
    ensures { PrintsRefusal result fault (L.state user.old) (L.state user.new) }
{
    match write_refused(fault, user) {
        Sent::Done => Done::Refused(fault),
        Sent::Failed => Done::WriteFault,
    }
}
