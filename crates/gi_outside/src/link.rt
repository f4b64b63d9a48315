// A peer that gives bytes and takes bytes.
ghost use Rattle.std.specs.Prelude.{◌≡◌, ◌≤◌, ◌<◌, ℕ, [], length, true, IfOk, IfSome};
ghost use Rattle.gi_outside.specs.Link.{ReadFits, Rose, WriteFits, bytes_read, got_of, is_end, pieces_put, pieces_read, put_of};
ghost use Rattle.gi_outside.specs.Told.{Adds, Takes};
ghost use Rattle.gi_outside.specs.World.{World};

use gi_text::Bytes;

/// A piece of a tape: bytes that came from the peer, or bytes that it took.
#[derive(Drop)]
pub enum Piece {
    In(Bytes),
    Out(Bytes),
}

/// What a read gave.
#[derive(Clone, Copy, Debug, PartialEq, Eq)]
pub enum Got {
    /// So many bytes, at the front of the buffer: at least 1.
    Bytes(usize),
    /// Nothing is left to come.
    End,
    /// The read failed. No byte has moved.
    Failed,
}

/// What a write did.
#[derive(Clone, Copy, Debug, PartialEq, Eq)]
pub enum Put {
    /// The peer took so many bytes, from the front of the piece: at least 1.
    Took(usize),
    /// The write failed. No byte has moved.
    Failed,
}

impl Got {
    /// What a read of the system is, which gave so many bytes: none are the end.
    pub fn of<E: Drop>(read: Result<usize, E>) -> Got
        ensures is { result ≡ got_of read }
        ensures fits { (room : ℕ) → IfOk read (λ n. n ≤ room) → ReadFits result room }
    {
        match read {
            Ok(0) => Got::End,
            Ok(n) => Got::Bytes(n),
            Err(_) => Got::Failed,
        }
    }
}

impl Put {
    /// What a write of the system is, which took so many bytes: to take none is a fault.
    pub fn of<E: Drop>(write: Result<usize, E>) -> Put
        ensures is { result ≡ put_of write }
        ensures fits { (room : ℕ) → IfOk write (λ n. n ≤ room) → WriteFits result room }
    {
        match write {
            Ok(0) => Put::Failed,
            Ok(n) => Put::Took(n),
            Err(_) => Put::Failed,
        }
    }
}

/// A peer that gives bytes and takes bytes.
///
/// Its tape of pieces and the bytes still to come may be told or not. Failed reads and failed
/// writes are counted, and neither count ever falls. Whether the last read answered `End` is always
/// told.
pub trait Link {
    /// What is known of the link.
    ghost state: { Self → World };

    /// Reads at least one byte into the front of `into`, which is not empty.
    fn read(&mut self, into: &mut [u8]) -> Got
        requires { 0 < length into.old }
        ensures fits { ReadFits result (length into.old) }
        ensures tape { Adds (state self.old).tape (state self.new).tape
            (pieces_read result into.new) }
        ensures rest { Takes (state self.old).rest (state self.new).rest
            (bytes_read result into.new) }
        ensures empty { result ≡ Got.End → IfSome (state self.new).rest (λ bytes. bytes ≡ []) }
        ensures ended { (state self.new).ended ≡ is_end result }

        // A read counts failed reads alone, and fails only where that count rose.
        ensures count { (state self.old).failed_reads ≤ (state self.new).failed_reads }
        ensures cause { result ≡ Got.Failed
            → Rose (state self.old).failed_reads (state self.new).failed_reads }
        ensures other { (state self.new).failed_writes ≡ (state self.old).failed_writes };

    /// Writes at least one byte from the front of `piece`, which is not empty.
    fn write(&mut self, piece: &[u8]) -> Put
        requires { 0 < length piece.now }
        ensures fits { WriteFits result (length piece.now) }
        ensures tape { Adds (state self.old).tape (state self.new).tape
            (pieces_put result piece.now) }
        ensures rest { (state self.new).rest ≡ (state self.old).rest }
        ensures ended { (state self.new).ended ≡ (state self.old).ended }

        // A write counts failed writes alone, and fails only where that count rose.
        ensures count { (state self.old).failed_writes ≤ (state self.new).failed_writes }
        ensures cause { result ≡ Put.Failed
            → Rose (state self.old).failed_writes (state self.new).failed_writes }
        ensures other { (state self.new).failed_reads ≡ (state self.old).failed_reads };

    /// Nothing is left to come once a read has answered `End`.
    ghost ended_is_empty: { (link : Self) → (state link).ended ≡ true
        → IfSome (state link).rest (λ bytes. bytes ≡ []) };
}
