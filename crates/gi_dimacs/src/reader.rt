// A reader of pieces, of either format.
ghost use Rattle.std.specs.Prelude.{◌≡◌, ◌≢◌, ◌<◌, ◌++◌, [], ℕ, List, length, OnOk, OnErr, true, false};
ghost use Rattle.gi_dimacs.specs.declared.content.Format.{Format};
ghost use Rattle.gi_dimacs.specs.Files.{read_file, whole};
ghost use Rattle.gi_dimacs.specs.Machine.{LacksMemory, run, answer, answer_of};
ghost use Rattle.gi_dimacs.specs.Answers.{TellsCnf};
ghost use Rattle.gi_dimacs.specs.declared.reader.Outcome.TheVariants as outcomes;

use crate::content::{Content, Format};
use crate::fault::{CnfCode, CnfFault};
use crate::machine::{Machine, Phase, end_last, new_machine, take};
use crate::words::Taken;
use std::alloc::{AllocError, Global};
use std::marker::Model;

/// What a reader answers at the end of its input.
#[derive(Drop)]
pub enum Outcome {
    File { vars: u32, content: Content },
    Fault(CnfFault),
    NoMemory,
}

#[derive(Drop)]
pub struct Reader {
    machine: Machine,
    broken: bool,
}

impl Model for Reader {
    ghost use Rattle.gi_dimacs.specs.Reader.{Reading};

    ghost Value = { Reading };

    ghost view = { λ r. record { machine = r.machine; broken = r.broken } };
}

impl Reader {
    ghost use Rattle.gi_dimacs.specs.Reader.{HasRead, WantsMemory};

    /// A reader that was fed nothing. Takes no memory.
    pub fn new(alloc: Global, format: Format) -> Reader
        ensures nothing { HasRead format result [] }
        ensures sound { result.broken ≡ false }
    {
        Reader {
            machine: new_machine(alloc, format),
            broken: false,
        }
    }

    /// Takes the next piece, cut anywhere. After an error the reader is broken, whatever else it is
    /// fed.
    pub fn feed(&mut self, piece: &[u8]) -> Result<(), AllocError>
        ensures ok { OnOk result ((format : Format) (bytes : List ℕ) → HasRead format self.old bytes
            → HasRead format self.new (bytes ++ piece.now)) }
        ensures sound { OnOk result (self.new.broken ≡ self.old.broken) }
        ensures err { OnErr result (self.new.broken ≡ true) }
        ensures some { OnErr result (0 < length piece.now) }
    {
        match take_all(&mut self.machine, piece) {
            Ok(()) => Ok(()),
            Err(e) => {
                self.broken = true;
                Err(e)
            }
        }
    }

    /// The input has ended.
    pub fn finish(self) -> Outcome
        ensures read { (format : Format) (bytes : List ℕ) → HasRead format self bytes
            → TellsCnf result (read_file format bytes) }
        ensures broken { self.broken ≡ true → result ≡ outcomes.NoMemory }
        ensures memory { result ≡ outcomes.NoMemory → WantsMemory self }
    {
        if self.broken {
            return Outcome::NoMemory;
        }
        read_off(self.machine)
    }
}

// The next bytes.
#[tactic(auto, unfolding(crate::specs::Machine::run))]
fn take_all(machine: &mut Machine, piece: &[u8]) -> Result<(), AllocError>
    ensures ok { OnOk result (machine.new ≡ run machine.old piece.now) }
    ensures some { OnErr result (0 < length piece.now) }
{
    for byte in piece {
        take(machine, *byte)?;
    }
    Ok(())
}

// What was read.
fn answer_of(phase: Phase, line: u64, taken: Taken) -> Outcome
    ensures read { TellsCnf result (answer_of phase line taken) }
    ensures memory { result ≢ outcomes.NoMemory }
{
    match phase {
        Phase::Before(_) => fault(line, CnfCode::Header),
        Phase::Failed(code) => fault(line, code),
        Phase::Ask => fault(line, CnfCode::Unterminated),
        Phase::Ended => file(taken),
        Phase::Body => file_if_whole(line, taken),
        Phase::Asked => file_if_whole(line, taken),
    }
}

fn file_if_whole(line: u64, taken: Taken) -> Outcome
    ensures read { TellsCnf result (whole taken line) }
    ensures memory { result ≢ outcomes.NoMemory }
{
    if taken.begun.as_slice().is_empty() {
        file(taken)
    } else {
        fault(line, CnfCode::Unterminated)
    }
}

fn file(taken: Taken) -> Outcome
    ensures { result ≡ outcomes.File taken.vars taken.content }
{
    Outcome::File {
        vars: taken.vars,
        content: taken.content,
    }
}

fn fault(line: u64, code: CnfCode) -> Outcome
    ensures { result ≡ outcomes.Fault (record { line = line; code = code }) }
{
    Outcome::Fault(CnfFault { line, code })
}

// What a machine read, at the end of the input.
#[tactic(auto, unfolding(crate::specs::Machine::answer))]
fn read_off(machine: Machine) -> Outcome
    ensures read { TellsCnf result (answer machine) }
    ensures memory { result ≡ outcomes.NoMemory → LacksMemory machine }
{
    let mut machine = machine;
    match end_last(&mut machine) {
        Ok(()) => {
            let Machine {
                alloc: _,
                line,
                phase,
                spot: _,
                word: _,
                taken,
            } = machine;
            answer_of(phase, line, taken)
        }
        Err(_) => Outcome::NoMemory,
    }
}
