// Lines of bytes that come in pieces, and raw bytes between them.
ghost use Rattle.std.specs.Prelude.{◌≡◌, ◌+◌, ◌-◌, ◌≤◌, ◌<◌, ◌^◌, [], length, drop, take, true, false, Some, None, IfSome, MatchOption, OnOk, OnErr, nat_lt};
ghost use Rattle.gi_text.specs.Lines.{Kept, fed, from_lf, line_at, without_front};

use crate::Bytes;
use crate::parts::{front, skip};
use crate::queue::Queue;
use memchr::memchr;
use std::alloc::{AllocError, Global};
use std::marker::Model;

const LF: u8 = b'\n';

/// The most bytes that a line has, its LF not counted, where no other limit is given.
pub const MAX_LINE: u32 = 1_048_576;

/// What comes next of the lines.
#[derive(Drop)]
pub enum Next {
    /// A whole line, without its LF.
    Line(Bytes),
    /// A whole line of more bytes than the limit. It is left out.
    Long,
    /// No whole line is there, and more may come.
    More,
    /// The input has ended, and nothing is left.
    Done,
    /// A line is there, and there was no memory to copy it. Nothing has changed.
    NoMemory,
}

/// What stands in front of the lines.
#[derive(Clone, Copy, Debug, PartialEq, Eq)]
pub enum Look {
    /// A whole line of so many bytes, its LF not counted. Nothing has changed.
    Line(u32),
    /// A whole line of more bytes than the limit. It was let go.
    Long,
    /// No whole line is there, and more may come.
    More,
    /// The input has ended, and nothing is left.
    Done,
}

/// What comes next of the raw bytes.
#[derive(Drop)]
pub enum Raw {
    /// As many bytes as were asked for.
    Bytes(Bytes),
    /// Fewer are there, and more may come. Nothing has changed.
    More,
    /// Fewer are there, and the input has ended. They are dropped.
    Cut,
    /// They are there, and there was no memory to copy them. Nothing has changed.
    NoMemory,
}

/// The lines of an input that comes in pieces, each ended by LF or by the end of the input, and raw
/// bytes between lines. Of a line of more bytes than the limit, those past the limit and one more
/// are not kept.
#[derive(Drop)]
pub struct Lines {
    alloc: Global,
    held: Queue,
    // So many bytes at the front were looked at, and none of them is LF.
    looked: usize,
    most: u32,
    ended: bool,
    // A line of too many bytes is under way.
    long: bool,
    // It is, and its LF has not come.
    dropping: bool,
}

impl Model for Lines {
    ghost use Rattle.gi_text.specs.Lines.{Kept};
    ghost use Rattle.gi_text.specs.Holding.{IsHeld};

    ghost Value = { Kept };

    ghost view = { λ l. record { left = l.held; ended = l.ended; long = l.long; most = l.most } };

    ghost invariant = { λ l. IsHeld l.held l.looked l.long l.dropping };
}

impl Lines {
    ghost use Rattle.gi_text.specs.Given.{Gives, GivesFront, GivesRaw, IsLine, Looks};
    ghost use Rattle.gi_text.specs.Lines.{GivesLine};

    /// No bytes yet, and lines of at most `MAX_LINE` bytes. Takes no memory.
    pub fn new(alloc: Global) -> Lines
        ensures { result ≡ record { left = []; ended = false; long = false; most = MAX_LINE } }
    {
        Lines::with_limit(alloc, MAX_LINE)
    }

    /// No bytes yet, and lines of at most `most` bytes. Takes no memory.
    pub fn with_limit(alloc: Global, most: u32) -> Lines
        ensures { result ≡ record { left = []; ended = false; long = false; most = most } }
    {
        Lines {
            alloc,
            held: Queue::new(alloc),
            looked: 0,
            most,
            ended: false,
            long: false,
            dropping: false,
        }
    }

    /// Takes the next piece of the input. For want of memory nothing changes.
    pub fn feed(&mut self, piece: &[u8]) -> Result<(), AllocError>
        ensures ok { OnOk result (self.new ≡ record self.old { left = fed self.old piece.now }) }
        ensures err { OnErr result (self.new ≡ self.old) }
    {
        if !self.dropping {
            self.held.extend(piece)?;
            return Ok(());
        }
        let kept = skip_to_lf(piece);
        self.held.extend(kept)?;
        self.dropping = kept.is_empty();
        Ok(())
    }

    /// The input has ended: what is left and has no LF is the last line.
    pub fn end(&mut self)
        ensures { self.new ≡ record self.old { ended = true } }
    {
        self.ended = true;
    }

    /// What stands in front. Takes no memory.
    pub fn look(&mut self) -> Look
        ensures { Looks result self.old self.new }
    {
        match self.find_end() {
            Some(n) => self.look_at(n),
            None if !self.ended => {
                self.wait();
                Look::More
            }
            None if self.held.is_empty() => Look::Done,
            None => {
                let n = self.held.len();
                self.look_at(n)
            }
        }
    }

    // What a whole line of `n` bytes in front is.
    fn look_at(&mut self, n: usize) -> Look
        requires { IsLine n self.old }
        ensures { Looks result self.old self.new }
    {
        let most = self.most as usize;
        if n > most {
            self.pass(n);
            return Look::Long;
        }
        Look::Line(n as u32)
    }

    /// The first `n` bytes.
    pub fn front(&self, n: usize) -> &[u8]
        requires { n ≤ length self.now.left }
        ensures { result.now ≡ take n self.now.left }
    {
        front(self.held.as_slice(), n)
    }

    /// Lets a whole line of `n` bytes go, which stands in front.
    pub fn pass(&mut self, n: usize)
        requires { IsLine n self.old }
        ensures { GivesLine (take n self.old.left) self.old self.new }
    {
        if n < self.held.len() {
            self.take_off(n + 1);
        } else {
            self.take_off(n);
        }
    }

    /// The next line, if it is whole.
    pub fn next_line(&mut self) -> Next
        ensures { Gives result self.old self.new }
    {
        match self.find_end() {
            Some(n) => self.give_front(n, n + 1),
            None if !self.ended => {
                self.wait();
                Next::More
            }
            None if self.held.is_empty() => Next::Done,
            None => {
                let n = self.held.len();
                self.give_front(n, n)
            }
        }
    }

    /// The next `n` bytes, which are no line. A line that is too long must not be under way: it is
    /// from a `next_line` that answered `More` while more than the limit of its bytes were there,
    /// until `next_line` answers `Long` for it.
    pub fn take_raw(&mut self, n: u32) -> Raw
        requires { self.old.long ≡ false }
        ensures raw { GivesRaw result n self.old self.new }
        ensures long { self.new.long ≡ false }
    {
        let n = n as usize;
        let len = self.held.len();
        if n <= len {
            return match Bytes::of(self.alloc, front(self.held.as_slice(), n)) {
                Ok(bytes) => {
                    self.take_off(n);
                    Raw::Bytes(bytes)
                }
                Err(_) => Raw::NoMemory,
            };
        }
        if !self.ended {
            return Raw::More;
        }
        self.take_off(len);
        Raw::Cut
    }

    // The length of the first line, if its LF is there. Remembers how far it looked.
    fn find_end(&mut self) -> Option<usize>
        ensures same { self.new ≡ self.old }
        ensures small { IfSome result (λ n. n + 1 < 2 ^ 64) }
        ensures found { MatchOption result (line_at self.old.left ≡ None)
            (λ n. (n < length self.old.left)
            × (line_at self.old.left ≡ Some (take n self.old.left, drop (n + 1) self.old.left))) }
    {
        match memchr(LF, skip(self.held.as_slice(), self.looked)) {
            Some(i) => {
                self.looked += i;
                Some(self.looked)
            }
            None => {
                self.looked = self.held.len();
                None
            }
        }
    }

    // Gives the first `n` bytes as a line, and lets the first `size` bytes go.
    fn give_front(&mut self, n: usize, size: usize) -> Next
        requires line { n ≤ size }
        requires there { size ≤ length self.old.left }
        ensures { GivesFront result n size self.old self.new }
    {
        if n > self.most as usize {
            self.take_off(size);
            return Next::Long;
        }
        match Bytes::of(self.alloc, front(self.held.as_slice(), n)) {
            Ok(line) => {
                self.take_off(size);
                Next::Line(line)
            }
            Err(_) => Next::NoMemory,
        }
    }

    // Lets the first `n` bytes go. What was under way is over.
    fn take_off(&mut self, n: usize)
        requires { n ≤ length self.old.left }
        ensures { self.new ≡ without_front n self.old }
    {
        self.held.advance(n);
        self.looked = self.looked.saturating_sub(n);
        self.long = false;
        self.dropping = false;
    }

    // Keeps of a line that is under way no more than shows that it is too long.
    fn wait(&mut self)
        requires { line_at self.old.left ≡ None }
        ensures { self.new ≡ record self.old {
          left = take (self.old.most + 1) self.old.left;
          long = nat_lt self.old.most (length self.old.left);
        } }
    {
        let most = self.most as usize;
        let long = self.held.len() > most;
        self.held.truncate(most + 1);
        self.looked = self.looked.min(self.held.len());
        self.long = long;
        self.dropping = long;
    }
}

// What stands from the first LF on.
fn skip_to_lf(bytes: &[u8]) -> &[u8]
    ensures { result.now ≡ from_lf bytes.now }
{
    match memchr(LF, bytes) {
        Some(i) => skip(bytes, i),
        None => &[],
    }
}
