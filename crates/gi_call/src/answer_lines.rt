// The lines of a server.
ghost use Rattle.std.specs.Prelude.{◌≡◌, ◌++◌, ◌≤◌, [], false, length, take, true, OnErr, OnOk};
ghost use Rattle.gi_text.specs.Given.{IsLine};
ghost use Rattle.gi_text.specs.Lines.{GivesLine};
ghost use Rattle.gi_call.specs.Front.{Fronts, HoldsLines};

use crate::front::Front;
use gi_text::{Lines, Look};
use std::alloc::{AllocError, Global};
use std::marker::Model;

/// The most bytes that a server's line has, its LF not counted.
pub const MAX_ANSWER: u32 = 1_073_741_824;

// The lines of a server, of at most `MAX_ANSWER` bytes each.
#[derive(Drop)]
pub struct AnswerLines {
    alloc: Global,
    lines: Lines,
    // How many bytes are left.
    held: u64,
}

impl Model for AnswerLines {
    ghost use Rattle.gi_text.specs.Lines.{Kept};
    ghost use Rattle.gi_call.specs.Front.{HoldsLines};

    ghost Value = { Kept };

    ghost view = { λ a. a.lines };

    ghost invariant = { λ a. HoldsLines a.lines a.held };
}

impl AnswerLines {
    pub fn new(alloc: Global) -> AnswerLines
        ensures { result ≡ record { left = []; ended = false; long = false; most = MAX_ANSWER } }
    {
        AnswerLines {
            alloc,
            lines: Lines::with_limit(alloc, MAX_ANSWER),
            held: 0,
        }
    }

    // Takes the next piece. For want of memory nothing changes: 2^64 bytes have no room.
    #[tactic(auto, unfolding(gi_text::specs::Lines::fed))]
    pub fn feed(&mut self, piece: &[u8]) -> Result<(), AllocError>
        ensures ok { OnOk result (self.new
            ≡ record self.old { left = self.old.left ++ piece.now }) }
        ensures err { OnErr result (self.new ≡ self.old) }
    {
        let held = self.held.checked_add(piece.len() as u64).ok_or(AllocError)?;
        self.lines.feed(piece)?;
        self.held = held;
        Ok(())
    }

    // The server has ended.
    pub fn end(&mut self)
        ensures { self.new ≡ record self.old { ended = true } }
    {
        self.lines.end();
    }

    // What stands in front.
    pub fn look(&mut self) -> Front
        ensures { Fronts result self.old self.new }
    {
        match self.lines.look() {
            Look::Line(n) => Front::Line(n),
            Look::Done => Front::Done,
            Look::Long => {
                give_up(self.alloc, &mut self.lines, &mut self.held);
                Front::Long
            }
            Look::More => {
                if self.held > MAX_ANSWER as u64 {
                    give_up(self.alloc, &mut self.lines, &mut self.held);
                    return Front::Long;
                }
                Front::More
            }
        }
    }

    // The first `n` bytes.
    pub fn front(&self, n: u32) -> &[u8]
        requires { n ≤ length self.now.left }
        ensures { result.now ≡ take n self.now.left }
    {
        self.lines.front(n as usize)
    }

    // Lets a whole line of `n` bytes go, which stands in front.
    pub fn pass(&mut self, n: u32)
        requires { IsLine n self.old }
        ensures { GivesLine (take n self.old.left) self.old self.new }
    {
        self.lines.pass(n as usize);
        self.held = self.held.saturating_sub(n as u64 + 1);
    }
}

// Lets all bytes go.
fn give_up(alloc: Global, lines: &mut Lines, held: &mut u64)
    ensures { HoldsLines lines.new held.new }
{
    *lines = Lines::with_limit(alloc, MAX_ANSWER);
    *held = 0;
}
