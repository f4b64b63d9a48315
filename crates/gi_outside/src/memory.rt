// A link in memory, which keeps its tape.
ghost use Rattle.std.specs.Prelude.{◌≡◌, ◌≤◌, ◌<◌, ◌∷◌, ◌++◌, [], length, take, drop, true, false, Some, IfSome, OnOk, OnErr, All};
ghost use Rattle.gi_outside.specs.Link.{ReadFits, Rose, WriteFits, bytes_read, is_end, outs, pieces_put, pieces_read};
ghost use Rattle.gi_outside.specs.Told.{Adds, Takes};
ghost use Rattle.gi_outside.specs.Script.{FollowsRead, FollowsWrite, read_size, reads_failed, writes_failed};
ghost use Rattle.gi_outside.specs.declared.link.Piece.TheVariants.{In, Out};

use crate::{Got, Link, Piece, Put};
use gi_text::{Bytes, skip};
use std::alloc::{AllocError, Global};

/// A link in memory, which tells its tape and the bytes still to come, and fails where it was told
/// to.
///
/// It also fails where there is no memory for its tape: that call moves no byte, and counts in
/// `starved` too.
#[derive(Drop)]
pub struct MemoryLink {
    alloc: Global,
    input: Bytes,
    at: usize,
    cuts: Vec<u32>,
    cut: usize,
    bad_reads: Vec<u64>,
    bad_writes: Vec<u64>,
    reads: u64,
    writes: u64,
    tape: Vec<Piece>,
    written: Vec<u8>,
    failed_reads: u64,
    failed_writes: u64,
    starved: u64,
    ended: bool,
    ghost in_input: { at ≤ length input },
    ghost joined: { written.items ≡ outs tape.items },
    ghost no_empty_cut: { All (λ c. 0 < c) cuts.items },
    ghost at_end: { ended ≡ true → drop at input ≡ [] },
}

impl MemoryLink {
    ghost use Rattle.gi_outside.specs.MemoryState.{memory_script, memory_state, memory_tape};

    /// A link that gives `input`. Its k-th successful read gives at most the k-th number of `cuts`,
    /// which are not 0, and past these as much as fits. The reads whose numbers stand in
    /// `bad_reads` fail, and the writes in `bad_writes`, each counted from 1. Takes no memory.
    #[tactic(auto, using(crate::proofs::Tape::outs_nil))]
    pub fn new(
        alloc: Global,
        input: Bytes,
        cuts: Vec<u32>,
        bad_reads: Vec<u64>,
        bad_writes: Vec<u64>,
    ) -> MemoryLink
        requires { All (λ c. 0 < c) cuts.items }
        ensures state { memory_state result
            ≡ record {
              tape = Some [];
              rest = Some input;
              failed_reads = 0;
              failed_writes = 0;
              ended = false;
            } }
        ensures script { memory_script result
            ≡ record {
              reads = 0;
              writes = 0;
              cuts = cuts.items;
              bad_reads = bad_reads.items;
              bad_writes = bad_writes.items;
              starved = 0;
            } }
    {
        MemoryLink {
            alloc,
            input,
            at: 0,
            cuts,
            cut: 0,
            bad_reads,
            bad_writes,
            reads: 0,
            writes: 0,
            tape: Vec::new(alloc),
            written: Vec::new(alloc),
            failed_reads: 0,
            failed_writes: 0,
            starved: 0,
            ended: false,
        }
    }

    /// How many calls have failed for want of memory.
    pub fn starved(&self) -> u64
        ensures { result ≡ (memory_script self.now).starved }
    {
        self.starved
    }

    /// All bytes that were written, in order.
    pub fn written(&self) -> &[u8]
        ensures { result.now ≡ outs (memory_tape self.now) }
    {
        self.written.as_slice()
    }
}

impl Link for MemoryLink {
    ghost use Rattle.gi_outside.specs.MemoryState.{memory_rest, memory_script, memory_state};

    ghost state = { memory_state };

    ghost ended_is_empty = { λ l e. l.at_end e };

    #[tactic(auto, using(crate::proofs::Tape::outs_more_in))]
    fn read(&mut self, into: &mut [u8]) -> Got
        requires { 0 < length into.old }
        ensures fits { ReadFits result (length into.old) }
        ensures tape { Adds (memory_state self.old).tape (memory_state self.new).tape
            (pieces_read result into.new) }
        ensures rest { Takes (memory_state self.old).rest (memory_state self.new).rest
            (bytes_read result into.new) }
        ensures empty { result ≡ Got.End
            → IfSome (memory_state self.new).rest (λ bytes. bytes ≡ []) }
        ensures ended { (memory_state self.new).ended ≡ is_end result }
        ensures count { (memory_state self.old).failed_reads
            ≤ (memory_state self.new).failed_reads }
        ensures cause { result ≡ Got.Failed
            → Rose (memory_state self.old).failed_reads (memory_state self.new).failed_reads }
        ensures other { (memory_state self.new).failed_writes
            ≡ (memory_state self.old).failed_writes }
        ensures script { FollowsRead result (length into.old) (length (memory_rest self.old))
            (memory_script self.old) (memory_script self.new) }
        ensures faults { (memory_state self.new).failed_reads
            ≡ reads_failed result (memory_state self.old).failed_reads }
    {
        self.ended = false;
        self.reads = self.reads.saturating_add(1);
        if self.bad_reads.contains(&self.reads) {
            self.failed_reads = self.failed_reads.saturating_add(1);
            return Got::Failed;
        }
        let rest = skip(self.input.as_slice(), self.at);
        if rest.is_empty() {
            self.ended = true;
            return Got::End;
        }
        let n = size_of_read(&self.cuts, self.cut, into.len(), rest.len());
        copy_front(rest, into, n);
        match note_in(self.alloc, &mut self.tape, &rest[..n]) {
            Ok(()) => {
                self.at += n;
                self.cut = after_cut(&self.cuts, self.cut);
                Got::Bytes(n)
            }
            Err(_) => {
                self.starved = self.starved.saturating_add(1);
                self.failed_reads = self.failed_reads.saturating_add(1);
                Got::Failed
            }
        }
    }

    #[tactic(auto, using(crate::proofs::Tape::outs_more_out))]
    fn write(&mut self, piece: &[u8]) -> Put
        requires { 0 < length piece.now }
        ensures fits { WriteFits result (length piece.now) }
        ensures tape { Adds (memory_state self.old).tape (memory_state self.new).tape
            (pieces_put result piece.now) }
        ensures rest { (memory_state self.new).rest ≡ (memory_state self.old).rest }
        ensures ended { (memory_state self.new).ended ≡ (memory_state self.old).ended }
        ensures count { (memory_state self.old).failed_writes
            ≤ (memory_state self.new).failed_writes }
        ensures cause { result ≡ Put.Failed
            → Rose (memory_state self.old).failed_writes (memory_state self.new).failed_writes }
        ensures other { (memory_state self.new).failed_reads
            ≡ (memory_state self.old).failed_reads }
        ensures script { FollowsWrite result (length piece.now) (memory_script self.old)
            (memory_script self.new) }
        ensures faults { (memory_state self.new).failed_writes
            ≡ writes_failed result (memory_state self.old).failed_writes }
    {
        self.writes = self.writes.saturating_add(1);
        if self.bad_writes.contains(&self.writes) {
            self.failed_writes = self.failed_writes.saturating_add(1);
            return Put::Failed;
        }
        match note_out(self.alloc, &mut self.tape, &mut self.written, piece) {
            Ok(()) => Put::Took(piece.len()),
            Err(_) => {
                self.starved = self.starved.saturating_add(1);
                self.failed_writes = self.failed_writes.saturating_add(1);
                Put::Failed
            }
        }
    }
}

// How many bytes a read gives into so much room, where so many are left.
fn size_of_read(cuts: &[u32], cut: usize, room: usize, left: usize) -> usize
    requires cuts { All (λ c. 0 < c) cuts.now }
    requires room { 0 < room }
    requires left { 0 < left }
    ensures value { result ≡ read_size (drop cut cuts.now) room left }
    ensures least { 1 ≤ result }
    ensures fits { result ≤ room }
    ensures there { result ≤ left }
{
    let fits = room.min(left);
    match cuts.get(cut) {
        Some(most) => fits.min(*most as usize),
        None => fits,
    }
}

// Where the cuts go on once this one was used.
fn after_cut(cuts: &[u32], cut: usize) -> usize
    ensures { drop result cuts.now ≡ drop 1 (drop cut cuts.now) }
{
    if cut < cuts.len() { cut + 1 } else { cut }
}

// Copies the first `n` bytes to the front of a buffer.
fn copy_front(input: &[u8], into: &mut [u8], n: usize)
    requires there { n ≤ length input.now }
    requires room { n ≤ length into.old }
    ensures { take n into.new ≡ take n input.now }
{
    into[..n].copy_from_slice(&input[..n]);
}

fn note_in(alloc: Global, tape: &mut Vec<Piece>, bytes: &[u8]) -> Result<(), AllocError>
    ensures ok { OnOk result (tape.new.items ≡ tape.old.items ++ In bytes.now ∷ []) }
    ensures err { OnErr result (tape.new.items ≡ tape.old.items) }
{
    tape.push(Piece::In(Bytes::of(alloc, bytes)?))?;
    Ok(())
}

fn note_out(
    alloc: Global,
    tape: &mut Vec<Piece>,
    written: &mut Vec<u8>,
    bytes: &[u8],
) -> Result<(), AllocError>
    ensures tape { OnOk result (tape.new.items ≡ tape.old.items ++ Out bytes.now ∷ []) }
    ensures written { OnOk result (written.new.items ≡ written.old.items ++ bytes.now) }
    ensures tape_err { OnErr result (tape.new.items ≡ tape.old.items) }
    ensures written_err { OnErr result (written.new.items ≡ written.old.items) }
{
    let copy = Bytes::of(alloc, bytes)?;
    let len = written.len();
    written.extend_from_slice(bytes)?;
    match tape.push(Piece::Out(copy)) {
        Ok(()) => Ok(()),
        Err(e) => {
            written.truncate(len);
            Err(AllocError::from(e))
        }
    }
}
