// The reader of pieces.
ghost use Rattle.std.specs.Prelude.{◌≡◌, ◌++◌, [], ℕ, List, OnOk, OnErr, true, false};
ghost use Rattle.gi_aiger.specs.Files.{read_file};
ghost use Rattle.gi_aiger.specs.Levels.{IsDistinct};
ghost use Rattle.gi_aiger.specs.Machine.{IsFit, run, answer, take_byte};
ghost use Rattle.gi_aiger.specs.Answers.{Reads, TellsAig, read_aig};
ghost use Rattle.gi_aiger.specs.Saying.{IsSaid};
ghost use Rattle.gi_aiger.specs.declared.read.AigRead.TheVariants as reads;

use crate::judge::read_off;
use crate::machine::{Machine, new_machine, take};
use crate::read::AigRead;
use std::alloc::{AllocError, Global};
use std::marker::Model;

/// Reads AIGER 1.9 from pieces, in the ASCII form or the binary one, as the header's word tells.
#[derive(Drop)]
pub struct AigReader {
    machine: Machine,
    broken: bool,
}

impl Model for AigReader {
    ghost use Rattle.std.specs.Prelude.{◌≡◌, false};
    ghost use Rattle.gi_aiger.specs.Reader.{Reading};
    ghost use Rattle.gi_aiger.specs.Machine.{IsFit};

    ghost Value = { Reading };

    ghost view = { λ r. record { machine = r.machine; broken = r.broken } };

    ghost invariant = { λ r. r.broken ≡ false → IsFit r.machine };
}

impl AigReader {
    ghost use Rattle.gi_aiger.specs.Reader.{HasRead};

    /// A reader that was fed nothing. Takes no memory.
    pub fn new(alloc: Global) -> AigReader
        ensures nothing { HasRead result [] }
        ensures sound { result.broken ≡ false }
    {
        AigReader {
            machine: new_machine(alloc),
            broken: false,
        }
    }

    /// Takes the next piece, cut anywhere. After an error the reader is broken, whatever else it is fed.
    pub fn feed(&mut self, piece: &[u8]) -> Result<(), AllocError>
        ensures ok { OnOk result ((bytes : List ℕ) → HasRead self.old bytes → HasRead self.new (bytes ++ piece.now)) }
        ensures sound { OnOk result (self.new.broken ≡ self.old.broken) }
        ensures err { OnErr result (self.new.broken ≡ true) }
    {
        if self.broken {
            return Err(AllocError);
        }
        match take_all(&mut self.machine, piece) {
            Ok(()) => Ok(()),
            Err(e) => {
                self.broken = true;
                Err(e)
            }
        }
    }

    /// The input has ended. The answer is the value of all bytes that were fed, or their first fault.
    /// A value is what these bytes say; where there is a fault, they say none.
    /// `NoMemory` comes where a `feed` answered an error; else it is want of memory here.
    pub fn finish(self) -> AigRead
        ensures read { (bytes : List ℕ) → HasRead self bytes → TellsAig result (read_file bytes) }
        ensures aig { (bytes : List ℕ) → HasRead self bytes → Reads result (read_aig bytes) }
        ensures said { (bytes : List ℕ) → HasRead self bytes → IsSaid result bytes }
        ensures broken { self.broken ≡ true → result ≡ reads.NoMemory }
    {
        if self.broken {
            return AigRead::NoMemory;
        }
        read_off(self.machine)
    }
}

// The next byte.
fn step(machine: &mut Machine, byte: u8) -> Result<(), AllocError>
    requires fit { IsFit machine.old }
    ensures taken { OnOk result (machine.new ≡ take_byte machine.old byte) }
    ensures fit { OnOk result (IsFit machine.new) }
{
    take(machine, byte)
}

// The next bytes.
#[tactic(auto, unfolding(crate::specs::Machine::run))]
fn take_all(machine: &mut Machine, piece: &[u8]) -> Result<(), AllocError>
    requires fit { IsFit machine.old }
    ensures run { OnOk result (machine.new ≡ run machine.old piece.now) }
    ensures fit { OnOk result (IsFit machine.new) }
{
    for byte in piece {
        step(machine, *byte)?;
    }
    Ok(())
}
