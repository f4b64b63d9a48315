ghost use Rattle.std.specs.Prelude.{◌≡◌, List, ℕ, refl};
ghost use Rattle.gi_outside.specs.World.{World};
ghost use Rattle.gi_outside.specs.Sent.{Sends};
ghost use Rattle.gi_dimacs.specs.Relation.{IsFile};
ghost use Rattle.gi_files.specs.Commands.{Accepts, cnf_output, format_of, icnf_output};
ghost use Rattle.gi_files.specs.Printing.{Prints};
ghost use Rattle.gi_files.specs.declared.command.Command.{Command};
ghost use Rattle.gi_files.specs.declared.form.Form.{Form};
ghost use Rattle.gi_files.specs.declared.form.Form.TheVariants as forms;

use crate::command::Command;
use crate::commands::Done;
use crate::counts::{write_cnf_counts, write_icnf_counts};
use gi_dimacs::{Cnf, FileValue, Icnf, write_cnf, write_icnf};
use gi_outside::{Link, Sent, write_all};
use std::alloc::Global;

/// What an input of a form says.
pub trait FormValue: FileValue {
    /// The form.
    ghost form: { Form };

    /// What a command prints of the value.
    ghost output: { Command → Self → List ℕ };

    /// Prints that.
    fn print<L: Link>(&self, alloc: Global, command: Command, user: &mut L) -> Done
        ensures { Prints result (output command self.now) (L.state user.old) (L.state user.new) };

    /// The form has the value's format.
    ghost of_format: { format_of form ≡ Self.format };

    /// Bytes that say the value are accepted.
    ghost accepts: { (command : Command) (v : Self) (bytes : List ℕ) → IsFile (Self.file v) bytes
        → Accepts command form bytes (output command v) };
}

impl FormValue for Cnf {
    ghost form = { forms.Cnf };

    ghost output = { cnf_output };

    ghost of_format = { refl };

    ghost accepts = { λ command v bytes is. (v, is, refl) };

    fn print<L: Link>(&self, alloc: Global, command: Command, user: &mut L) -> Done {
        match command {
            Command::Check => printed(write_cnf_counts(self, user)),
            Command::Convert => match write_cnf(alloc, self) {
                Ok(text) => printed(write_all(text.as_slice(), user)),
                Err(_) => Done::NoMemory,
            },
        }
    }
}

impl FormValue for Icnf {
    ghost form = { forms.Icnf };

    ghost output = { icnf_output };

    ghost of_format = { refl };

    ghost accepts = { λ command v bytes is. (v, is, refl) };

    fn print<L: Link>(&self, alloc: Global, command: Command, user: &mut L) -> Done {
        match command {
            Command::Check => printed(write_icnf_counts(self, user)),
            Command::Convert => match write_icnf(alloc, self) {
                Ok(text) => printed(write_all(text.as_slice(), user)),
                Err(_) => Done::NoMemory,
            },
        }
    }
}

// How a command ends whose output was sent so.
fn printed(sent: Sent) -> Done
    ensures { (old new : World) (text : List ℕ) → Sends sent old new text
        → Prints result text old new }
{
    match sent {
        Sent::Done => Done::Accepted,
        Sent::Failed => Done::WriteFault, // the output was cut
    }
}
