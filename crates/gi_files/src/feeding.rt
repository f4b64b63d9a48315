// A link's input, fed to a reader of pieces.
ghost use Rattle.std.specs.Prelude.{[]};
ghost use Rattle.gi_dimacs.specs.Reader.{HasRead};
ghost use Rattle.gi_files.specs.Feeding.{Feeds};

use gi_dimacs::{FileReader, FileValue};
use gi_outside::{Got, Link};

// The most bytes that are taken, but for the last read.
const MOST_BYTES: u64 = 1 << 62;

// The most bytes that one read asks for.
const PIECE: usize = 4096;

/// What came of feeding a reader.
#[derive(Clone, Copy, Debug, PartialEq, Eq)]
pub enum Fed {
    /// All bytes of the input.
    All,
    /// Memory was wanting.
    NoMemory,
    /// A read failed.
    ReadFault,
    /// 2^62 bytes, and no end came.
    TooMuch,
}

/// Feeds a reader that was fed nothing with the link's input up to its end.
pub fn feed_all<V: FileValue, L: Link>(reader: &mut FileReader<V>, user: &mut L) -> Fed
    requires { HasRead V.format reader.old [] }
    ensures { Feeds result V.format reader.new (L.state user.old) (L.state user.new) }
{
    let mut buffer = [0u8; PIECE];
    let mut taken = 0u64;
    'pieces: while taken < MOST_BYTES {
        match user.read(&mut buffer) {
            Got::Failed => return Fed::ReadFault,
            Got::End => return Fed::All,
            Got::Bytes(n) => {
                taken += n as u64;
                match reader.feed(&buffer[..n]) {
                    Ok(()) => {}
                    Err(_) => return Fed::NoMemory,
                }
            }
        }
    }
    Fed::TooMuch
}
