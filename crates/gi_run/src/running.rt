ghost use Rattle.std.specs.Prelude.{◌≡◌, ◌≢◌, ◌⊎◌, ◌↔◌, None, IfSome, map};
ghost use Rattle.std.specs.String.{string_bytes};
ghost use Rattle.gi_outside.specs.Link.{Rose};
ghost use Rattle.gi_files.specs.Completeness.{UndisturbedIsAnswered};
ghost use Rattle.gi_command.specs.Ranges.{IsInRange};
ghost use Rattle.gi_command.specs.Words.{command_of};
ghost use Rattle.gi_run.specs.Outcome.{exit_status};
ghost use Rattle.gi_run.specs.Output.{done_refusal, done_status};
ghost use Rattle.gi_run.specs.Performing.{DoesWords, Performs};

use crate::drilling::{drill, status_of_drill};
use crate::serving::host;
use crate::solving::{refusal_of_solves, solve_file, status_of_solves};
use gi_command::{Command, read_words};
use gi_dimacs::CnfFault;
use gi_files::{Done, check, convert, undisturbed_is_answered};
use gi_host::SessionEnd;
use gi_net::How;
use gi_outside::Link;
use gi_room::{Gate, Pass, Room};
use std::alloc::Global;
use std::sync::Wait;
use std::thread::Threads;

/// How the program ends: its exit status, the fault of an input that was refused, and the pass that
/// it was handed.
#[derive(Drop)]
pub struct Outcome {
    pub status: u8,
    pub refusal: Option<CnfFault>,
    pub pass: Pass,
}

/// Does what the words ask for.
///
/// `run` serves one session over `user` on the pass, which is one of this room and may have been used before, and then shuts the
/// machine where a call is left. A worker with a pass of its own works beside the session on its
/// solves, and turns the gate whenever it finds none running; with `-q` there is no worker. All
/// passes that were split off are joined again. `check` and `convert`, each with `cnf` or `icnf`
/// behind it, read `user` to its end and print the counts or the canonical text of what it says, or
/// `refused LINE CODE` for its first fault. `solve`, also with `--budget N` behind the form (1 to
/// 4,294,967,295, for each solve; else the greatest), reads `user` to its end, makes the calls of
/// its solves on the pass, and prints `s SATISFIABLE` with a model's literals in `v` lines, `s
/// UNSATISFIABLE` or `s UNKNOWN` for each; or the refusal, as `check` does. `drill N` (0 to 10,000)
/// serves a script of 600 clauses and N rounds of a guard on the pass, and prints what it counts of
/// the answers. No other words are a command.
///
/// The status is
/// - 0 where a session ended by `bye` or by the input's end, `check` or `convert` accepted the input, a drill printed what it
///   counted, or the last solve of `solve` wasn't answered within its budget, or there was none;
/// - 10 where the last solve was answered satisfiable, and 20 where it was answered unsatisfiable;
/// - 1 where the input of `check`, `convert` or `solve` was refused;
/// - 2 only where the words are no command; then nothing is read, written or called;
/// - 3 for want of memory: for the words, and then nothing was done, whatever they are; in a drill for its script and its link
///   too; and where the machine denied a call of `solve`, which a new machine does only where its work found no memory;
/// - 4 only where a read of `user` failed, and 5 only where a write did;
/// - 8 where no call of the pass was left, or 2^62 bytes of `user` were taken;
/// - 9 where a call of a session or of a drill was refused for good: the machine was over before, or work on it found no
///   memory.
pub fn run<R: Threads + Wait + Sync, L: Link, G: Gate + Sync>(
    rt: &R,
    alloc: Global,
    words: &[String],
    room: &Room,
    pass: Pass,
    user: &mut L,
    gate: &G,
) -> Outcome
    requires of { pass.place ≡ room.now }
    ensures does { DoesWords (map (λ word. string_bytes word) words.now) (L.state user.old)
        (L.state user.new) pass result.pass
        result.status result.refusal }
    ensures place { result.pass.place ≡ pass.place }
    ensures no_command { result.status ≡ 2
        → command_of (map (λ word. string_bytes word) words.now) ≡ None }
    ensures two { command_of (map (λ word. string_bytes word) words.now) ≡ None
        → (result.status ≡ 2) ⊎ (result.status ≡ 3) }
    ensures read { result.status ≡ 4
        → Rose (L.state user.old).failed_reads (L.state user.new).failed_reads }
    ensures write { result.status ≡ 5
        → Rose (L.state user.old).failed_writes (L.state user.new).failed_writes }
{
    match read_words(alloc, words) {
        Ok(command) => perform(rt, alloc, command, room, pass, user, gate),
        Err(_) => Outcome {
            status: 3,
            refusal: None,
            pass,
        },
    }
}

/// Does what a command asks for; none changes nothing.
fn perform<R: Threads + Wait + Sync, L: Link, G: Gate + Sync>(
    rt: &R,
    alloc: Global,
    command: Option<Command>,
    room: &Room,
    pass: Pass,
    user: &mut L,
    gate: &G,
) -> Outcome
    requires of { pass.place ≡ room.now }
    requires range { IfSome command IsInRange }
    ensures does { Performs command (L.state user.old) (L.state user.new) pass result.pass
        result.status result.refusal }
    ensures two { (result.status ≡ 2) ↔ (command ≡ None) }
    ensures read { result.status ≡ 4
        → Rose (L.state user.old).failed_reads (L.state user.new).failed_reads }
    ensures write { result.status ≡ 5
        → Rose (L.state user.old).failed_writes (L.state user.new).failed_writes }
{
    match command {
        None => Outcome {
            status: 2,
            refusal: None,
            pass,
        },
        Some(command) => obey(rt, alloc, command, room, pass, user, gate),
    }
}

/// Does what a command asks for.
fn obey<R: Threads + Wait + Sync, L: Link, G: Gate + Sync>(
    rt: &R,
    alloc: Global,
    command: Command,
    room: &Room,
    pass: Pass,
    user: &mut L,
    gate: &G,
) -> Outcome
    requires of { pass.place ≡ room.now }
    requires range { IsInRange command }
    ensures does { Performs (Some command) (L.state user.old) (L.state user.new) pass result.pass
        result.status result.refusal }
    ensures not_two { result.status ≢ 2 }
    ensures read { result.status ≡ 4
        → Rose (L.state user.old).failed_reads (L.state user.new).failed_reads }
    ensures write { result.status ≡ 5
        → Rose (L.state user.old).failed_writes (L.state user.new).failed_writes }
{
    match command {
        Command::Run { quiet } => {
            let SessionEnd { how, pass } = host(rt, alloc, room, pass, user, gate, quiet);
            Outcome {
                status: status_of(how),
                refusal: None,
                pass,
            }
        }
        Command::Check(form) => file_outcome(check(alloc, form, user), pass),
        Command::Convert(form) => file_outcome(convert(alloc, form, user), pass),
        Command::Solve { form, budget } => {
            let (solved, pass) = solve_file(rt, alloc, form, budget, room, pass, user);
            Outcome {
                status: status_of_solves(solved),
                refusal: refusal_of_solves(solved),
                pass,
            }
        }
        Command::Drill(rounds) => {
            let (drilled, pass) = drill(rt, alloc, rounds, room, pass, user);
            Outcome {
                status: status_of_drill(drilled),
                refusal: None,
                pass,
            }
        }
    }
}

/// The end of `check` or `convert`, with the pass as it was.
fn file_outcome(done: Done, pass: Pass) -> Outcome
    ensures status { result.status ≡ done_status done }
    ensures refusal { result.refusal ≡ done_refusal done }
    ensures pass { result.pass ≡ pass }
    ensures whole { UndisturbedIsAnswered }
    ensures not_two { result.status ≢ 2 }
{
    Outcome {
        status: status_of_file(done),
        refusal: refusal_of_file(done),
        pass,
    }
}

/// The exit status of a session that ended so: 0 by `bye` or the input's end, 3 for want of memory,
/// 4 and 5 for a read and a write that failed, 8 where no call was left or too many bytes came, 9
/// where the machine is over.
fn status_of(how: How) -> u8
    ensures value { result ≡ exit_status how }
    ensures not_two { result ≢ 2 }
{
    match how {
        How::Bye | How::Eof => 0,
        How::NoMemory => 3,
        How::ReadFault => 4,
        How::WriteFault => 5,
        How::TooMuch => 8,
        How::Dead => 9,
    }
}

/// The exit status of `check` or `convert` that ended so: 0 where the input was accepted, 1 where
/// it was refused, 3 for want of memory, 4 and 5 for a read and a write that failed, 8 where too
/// many bytes came.
fn status_of_file(done: Done) -> u8
    ensures value { result ≡ done_status done }
    ensures whole { UndisturbedIsAnswered }
    ensures not_two { result ≢ 2 }
{
    undisturbed_is_answered();
    match done {
        Done::Accepted => 0,
        Done::Refused(_) => 1,
        Done::NoMemory => 3,
        Done::ReadFault => 4,
        Done::WriteFault => 5,
        Done::TooMuch => 8,
    }
}

/// The fault of an input that `check` or `convert` refused.
fn refusal_of_file(done: Done) -> Option<CnfFault>
    ensures { result ≡ done_refusal done }
{
    match done {
        Done::Refused(fault) => Some(fault),
        _ => None,
    }
}
