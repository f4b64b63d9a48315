// Whole inputs from a link.
ghost use Rattle.std.specs.Prelude.{ℕ, List};
ghost use Rattle.gi_outside.specs.World.{World};
ghost use Rattle.gi_dimacs.specs.Answers.{AnswersFile};
ghost use Rattle.gi_files.specs.Input.{IsAll, IsInput, Reads};

use crate::feeding::{Fed, feed_all};
use gi_dimacs::{CnfFault, FileRead, FileReader, FileValue};
use gi_outside::Link;
use std::alloc::Global;

/// What an input is that should be a file of one format.
#[derive(Drop)]
pub enum FileInput<V> {
    /// What all bytes say.
    Value(V),
    /// The first fault of all bytes.
    Refused(CnfFault),
    /// Memory was wanting.
    NoMemory,
    /// A read failed.
    ReadFault,
    /// 2^62 bytes were taken, and no end came.
    TooMuch,
}

/// Reads a file up to the end of the link's input, at most 4,096 bytes at a time, and writes
/// nothing. The answer is the value of all bytes that came, or their first fault. `ReadFault` comes
/// only where the link's count of failed reads rose, and
/// `TooMuch` only after 2^62 bytes.
pub fn read_file<V: FileValue, L: Link>(alloc: Global, user: &mut L) -> FileInput<V>
    ensures { Reads V.format V.file result (L.state user.old) (L.state user.new) }
{
    let mut reader = FileReader::<V>::new(alloc);
    match feed_all(&mut reader, user) {
        Fed::All => input_of(reader.finish()),
        Fed::NoMemory => FileInput::NoMemory,
        Fed::ReadFault => FileInput::ReadFault,
        Fed::TooMuch => FileInput::TooMuch,
    }
}

fn input_of<V: FileValue>(read: FileRead<V>) -> FileInput<V>
    ensures { (old new : World) (bytes : List ℕ) → IsAll old new bytes
        → AnswersFile V.format V.file read bytes → IsInput V.format V.file result old new bytes }
{
    match read {
        FileRead::Value(value) => FileInput::Value(value),
        FileRead::Fault(fault) => FileInput::Refused(fault),
        FileRead::NoMemory => FileInput::NoMemory,
    }
}
