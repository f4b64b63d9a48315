ghost use Rattle.std.specs.Prelude.{◌≡◌, ◌≤◌, ◌<◌, None, true, false, length, IfSome, []};

use gi_outside::{Got, Link, Put};
use gi_text::Bytes;

// How many polls are asked at most.
const MOST_POLLS: u64 = 10_000_000;

/// What a poller gives.
#[derive(Clone, Copy, Debug, PartialEq, Eq)]
enum Line {
    /// The lines that it begins with.
    Script,
    Poll,
    Bye,
}

/// A link that gives some lines, then `poll` again and again until it is answered `sat 1` or `unsat
/// 1`, and then `bye`. It gives a byte a read.
#[derive(Drop)]
pub struct Poller {
    script: Bytes,
    line: Line,
    at: usize,
    polls: u64,
    answer: Answer,
    ended: bool,
}

/// What was seen of the answers: how the line begins that is being written, how long it is, and
/// whether `sat 1` or `unsat 1` came.
#[derive(Clone, Copy, Debug, PartialEq, Eq)]
struct Answer {
    head: [u8; 5],
    length: usize,
    sat: bool,
    unsat: bool,
}

impl Answer {
    fn new() -> Answer {
        Answer {
            head: [0; 5],
            length: 0,
            sat: false,
            unsat: false,
        }
    }

    // More of the answers.
    fn take_all(&mut self, bytes: &[u8]) {
        for byte in bytes {
            self.take(*byte);
        }
    }

    // A byte more of an answer.
    fn take(&mut self, byte: u8) {
        if byte == b'\n' {
            self.end_line();
            return;
        }
        if self.length < 5 {
            self.head[self.length] = byte;
        }
        self.length = self.length.saturating_add(1);
    }

    fn end_line(&mut self) {
        if self.head == *b"sat 1" {
            self.sat = true;
        }
        if self.head == *b"unsat" {
            self.unsat = true;
        }
        self.length = 0;
    }
}

impl Poller {
    /// A poller that begins with these lines.
    pub fn new(script: Bytes) -> Poller {
        Poller {
            script,
            line: Line::Script,
            at: 0,
            polls: 0,
            answer: Answer::new(),
            ended: false,
        }
    }

    /// Whether `sat 1` was answered.
    pub fn saw_sat(&self) -> bool {
        self.answer.sat
    }

    // The byte at the place in the line that it gives, if the line has one.
    fn byte(&self) -> Option<u8> {
        let bytes = match self.line {
            Line::Script => self.script.as_slice(),
            Line::Poll => b"poll\n".as_slice(),
            Line::Bye => b"bye\n".as_slice(),
        };
        bytes.get(self.at).copied()
    }

    // Goes on to the next line.
    fn turn(&mut self) {
        self.at = 0;
        self.polls = self.polls.saturating_add(1);
        self.line = if self.is_done() {
            Line::Bye
        } else {
            Line::Poll
        };
    }

    fn is_done(&self) -> bool {
        if self.answer.sat {
            return true;
        }
        if self.answer.unsat {
            return true;
        }
        self.polls > MOST_POLLS
    }

    // The next byte.
    fn next(&mut self) -> Option<u8> {
        if self.byte().is_none() {
            self.turn();
        }
        let byte = self.byte();
        self.at = self.at.saturating_add(1);
        byte
    }
}

impl Link for Poller {
    ghost state = { λ l. record {
      tape = None;
      rest = None;
      failed_reads = 0;
      failed_writes = 0;
      ended = l.ended;
    } };

    ghost ended_is_empty = { λ _ _. tt };

    fn read(&mut self, into: &mut [u8]) -> Got {
        match self.next() {
            Some(byte) => {
                into[0] = byte;
                self.ended = false;
                Got::Bytes(1)
            }
            None => {
                self.ended = true;
                Got::End
            }
        }
    }

    fn write(&mut self, piece: &[u8]) -> Put {
        self.answer.take_all(piece);
        Put::Took(piece.len())
    }
}
