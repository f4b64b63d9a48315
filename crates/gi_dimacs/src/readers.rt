// The readers of the two formats.
ghost use Rattle.std.specs.Prelude.{◌≡◌, ◌<◌, ◌++◌, [], ℕ, List, length, OnOk, OnErr, true, false};
ghost use Rattle.gi_dimacs.specs.Answers.{AnswersFile};
ghost use Rattle.gi_dimacs.specs.declared.readers.FileRead.TheVariants as read;

use crate::cnf::{Cnf, Icnf};
use crate::fault::CnfFault;
use crate::reader::{Outcome, Reader};
use crate::value::FileValue;
use std::alloc::{AllocError, Global};
use std::marker::{Model, PhantomData};

/// What the bytes of a file are.
#[derive(Drop)]
pub enum FileRead<V> {
    /// What the file says.
    Value(V),
    /// The first fault.
    Fault(CnfFault),
    NoMemory,
}

/// What the bytes of a CNF file are.
pub type CnfRead = FileRead<Cnf>;

/// What the bytes of an iCNF file are.
pub type IcnfRead = FileRead<Icnf>;

/// Reads a file of one format from pieces.
#[derive(Drop)]
pub struct FileReader<V> {
    reader: Reader,
    value: PhantomData<V>,
}

/// Reads DIMACS CNF from pieces.
pub type CnfReader = FileReader<Cnf>;

/// Reads iCNF from pieces.
pub type IcnfReader = FileReader<Icnf>;

impl<V> Model for FileReader<V> {
    ghost use Rattle.gi_dimacs.specs.Reader.{Reading};

    ghost Value = { Reading };

    ghost view = { λ r. r.reader };
}

impl<V: FileValue> FileReader<V> {
    ghost use Rattle.gi_dimacs.specs.Reader.{HasRead, WantsMemory};

    /// A reader that was fed nothing. Takes no memory.
    pub fn new(alloc: Global) -> FileReader<V>
        ensures nothing { HasRead V.format result [] }
        ensures sound { result.broken ≡ false }
    {
        FileReader {
            reader: Reader::new(alloc, V::format()),
            value: PhantomData,
        }
    }

    /// Takes the next piece, cut anywhere. After an error the reader is broken, whatever else it is
    /// fed.
    pub fn feed(&mut self, piece: &[u8]) -> Result<(), AllocError>
        ensures ok { OnOk result ((bytes : List ℕ) → HasRead V.format self.old bytes
            → HasRead V.format self.new (bytes ++ piece.now)) }
        ensures sound { OnOk result (self.new.broken ≡ self.old.broken) }
        ensures err { OnErr result (self.new.broken ≡ true) }
        ensures some { OnErr result (0 < length piece.now) }
    {
        self.reader.feed(piece)
    }

    /// The input has ended. The answer is the value of all bytes that were fed, or their first
    /// fault.
    /// `NoMemory` comes where a `feed` answered an error; else only where the last word has not ended, and memory is
    /// wanting for it, or where line 2^64 - 1 ends.
    pub fn finish(self) -> FileRead<V>
        ensures read { (bytes : List ℕ) → HasRead V.format self bytes
            → AnswersFile V.format V.file result bytes }
        ensures broken { self.broken ≡ true → result ≡ read.NoMemory }
        ensures memory { (bytes : List ℕ) → HasRead V.format self bytes
            → result ≡ read.NoMemory → WantsMemory self }
    {
        match self.reader.finish() {
            Outcome::File { vars, content } => match V::of(vars, content) {
                Some(value) => FileRead::Value(value),
                // Never: a reader of a format keeps what its files hold.
                None => FileRead::NoMemory,
            },
            Outcome::Fault(fault) => FileRead::Fault(fault),
            Outcome::NoMemory => FileRead::NoMemory,
        }
    }
}
