// A reader of items.
ghost use Rattle.std.specs.Prelude.{◌≡◌, ◌++◌, ◌+◌, ◌^◌, ◌<◌, ◌≤◌, ℕ, List, Bool, length, take, [], true, false, Some, None, MatchOption, OnOk, OnErr};
ghost use Rattle.gi_text.specs.Given.{IsLine};
ghost use Rattle.gi_text.specs.Lines.{GivesLine};
ghost use Rattle.gi_wire.specs.Gives.{GivesLoad, GivesNext, GoesOn};
ghost use Rattle.gi_wire.specs.Items.{alone, load_call};
ghost use Rattle.gi_wire.specs.Limits.{most_line};
ghost use Rattle.gi_wire.specs.Source.{ahead, last_line};
ghost use Rattle.gi_wire.specs.Taken.{Takes};

use crate::begun::{Begun, Taken};
use crate::call::{Kind, Load};
use gi_model::Call;
use gi_text::{Bytes, Lines, Look, Raw};
use std::alloc::{AllocError, Global};
use std::marker::Model;

/// What an item asks for.
#[derive(Drop)]
pub enum RequestKind {
    Call(Call),
    /// The line isn't in the grammar, or the input ends before the load's bytes are there or behind
    /// a `+`.
    Syntax,
    /// A line has more than `MAX_LINE` bytes, or those that are joined have more than `MAX_JOINED`
    /// together.
    Long,
}

/// A line, with all that are joined to it because each before goes on by a last word `+`; a load
/// with the bytes behind its line, which are no lines.
#[derive(Drop)]
pub struct Request {
    /// The number of its first line, from 1.
    pub line: u64,
    pub asked: RequestKind,
}

/// What comes next of the items.
#[derive(Drop)]
pub enum NextRequest {
    Request(Request),
    /// No item is whole, and more may come.
    More,
    /// The input has ended, and every item was given.
    Done,
    /// There was no memory for the lists or the bytes of the next item. The reader isn't to be used
    /// again.
    NoMemory,
}

/// The items of an input that comes in pieces. It hides numbers, joined lines, loads under way, and
/// how much is kept of lines that are too long.
#[derive(Drop)]
pub struct Reader {
    alloc: Global,
    lines: Lines,
    // The number of the next line.
    line: u64,
    // The lines that it is joined to.
    begun: Begun,
    // Its line was taken, and its bytes were not.
    load: Option<Load>,
}

impl Model for Reader {
    ghost use Rattle.gi_wire.specs.Source.{Source};
    ghost use Rattle.gi_wire.specs.Holds.{HoldsLong, HoldsLoad};

    ghost Value = { Source };

    ghost view = { λ r. record {
      lines = r.lines;
      line = r.line;
      joined = r.begun;
      load = r.load;
    } };

    ghost invariant = { λ r. HoldsLong r.lines × HoldsLoad r.lines r.load };
}

impl Reader {
    /// Nothing was fed yet. Takes no memory.
    pub fn new(alloc: Global) -> Reader
        ensures { result ≡ record {
          lines = record {
            left = [];
            ended = false;
            long = false;
            most = most_line;
          };
          line = 1;
          joined = alone 1;
          load = None;
        } }
    {
        Reader {
            alloc,
            lines: Lines::new(alloc),
            line: 1,
            begun: Begun::new(alloc, 1),
            load: None,
        }
    }

    /// Takes the next piece of the input. For want of memory nothing changes.
    pub fn feed(&mut self, piece: &[u8]) -> Result<(), AllocError>
        ensures ended { self.new.lines.ended ≡ self.old.lines.ended }
        ensures ok { OnOk result ((ended : Bool) (more : List ℕ)
            → ahead self.new ended more ≡ ahead self.old ended (piece.now ++ more)) }
        ensures count { OnOk result (last_line self.new ≤ last_line self.old + length piece.now) }
        ensures err { OnErr result (self.new ≡ self.old) }
    {
        self.lines.feed(piece)?;
        Ok(())
    }

    /// The input has ended.
    pub fn end(&mut self)
        ensures ended { self.new.lines.ended ≡ true }
        ensures same { (ended : Bool) (more : List ℕ)
            → ahead self.new ended more ≡ ahead self.old ended more }
        ensures count { last_line self.new ≡ last_line self.old }
    {
        self.lines.end();
    }

    /// The next item.
    pub fn next_item(&mut self) -> NextRequest
        requires { last_line self.old < 2 ^ 63 }
        ensures { GivesNext result self.old self.new }
    {
        match self.load {
            Some(load) => self.next_load(load),
            None => self.next_lines(),
        }
    }

    // The item that the next lines are, or begin.
    fn next_lines(&mut self) -> NextRequest
        requires room { last_line self.old < 2 ^ 63 }
        requires load { self.old.load ≡ None }
        ensures { GivesNext result self.old self.new }
    {
        'lines: loop {
            match self.take_line() {
                Some(given) => return given,
                None => {}
            }
        }
    }

    // Takes a line: what it gives, unless it goes on.
    fn take_line(&mut self) -> Option<NextRequest>
        requires room { last_line self.old < 2 ^ 63 }
        requires load { self.old.load ≡ None }
        ensures { MatchOption result (GoesOn self.old self.new)
            (λ given. GivesNext given self.old self.new) }
    {
        match self.lines.look() {
            Look::Line(n) => self.take_whole(n),
            Look::Long => {
                let first = self.begun.first();
                Some(NextRequest::Request(self.number(first, RequestKind::Long)))
            }
            Look::More => Some(NextRequest::More),
            Look::Done => Some(self.cut_lines()),
        }
    }

    // Takes the line of `n` bytes in front.
    fn take_whole(&mut self, n: u32) -> Option<NextRequest>
        requires room { last_line self.old < 2 ^ 63 }
        requires load { self.old.load ≡ None }
        requires line { IsLine n self.old.lines }
        requires short { n ≤ most_line }
        ensures { MatchOption result (GoesOn self.old self.new)
            (λ given. GivesNext given self.old self.new) }
    {
        let first = self.begun.first();
        match take_front(self.alloc, &mut self.begun, &mut self.lines, n) {
            Taken::GoesOn => {
                self.line += 1;
                None
            }
            Taken::Long => Some(NextRequest::Request(self.number(first, RequestKind::Long))),
            Taken::Call(call) => Some(NextRequest::Request(self.number(
                first,
                RequestKind::Call(call),
            ))),
            Taken::Load(load) => {
                self.begun = Begun::new(self.alloc, self.line);
                self.load = Some(load);
                Some(self.next_load(load))
            }
            Taken::Syntax => Some(NextRequest::Request(self.number(first, RequestKind::Syntax))),
            Taken::NoMemory => Some(NextRequest::NoMemory),
        }
    }

    // The input has ended: lines that go on are refused.
    fn cut_lines(&mut self) -> NextRequest
        requires load { self.old.load ≡ None }
        requires left { self.old.lines.left ≡ [] }
        requires ended { self.old.lines.ended ≡ true }
        ensures { GivesNext result self.old self.new }
    {
        if self.begun.is_empty() {
            return NextRequest::Done;
        }
        let line = self.begun.first();
        self.begun = Begun::new(self.alloc, self.line);
        NextRequest::Request(Request {
            line,
            asked: RequestKind::Syntax,
        })
    }

    // The item that the load under way makes.
    fn next_load(&mut self, load: Load) -> NextRequest
        requires room { self.old.line < 2 ^ 63 }
        requires load { self.old.load ≡ Some load }
        ensures { GivesLoad result self.old self.new }
    {
        let line = self.line;
        match self.lines.take_raw(load.len) {
            Raw::Bytes(bytes) => {
                NextRequest::Request(self.number(
                    line,
                    RequestKind::Call(call_of_load(load.kind, bytes)),
                ))
            }
            Raw::More => NextRequest::More,
            Raw::Cut => NextRequest::Request(self.number(line, RequestKind::Syntax)),
            Raw::NoMemory => NextRequest::NoMemory,
        }
    }

    // Numbers what an item asks for. The next line begins another.
    fn number(&mut self, first: u64, asked: RequestKind) -> Request
        requires { self.old.line < 2 ^ 63 }
        ensures item { result ≡ record { line = first; asked = asked } }
        ensures next { self.new ≡ record self.old {
          line = self.old.line + 1;
          joined = alone (self.old.line + 1);
          load = None;
        } }
    {
        self.line += 1;
        self.begun = Begun::new(self.alloc, self.line);
        self.load = None;
        Request { line: first, asked }
    }
}

// Takes the whole line of `n` bytes that stands in front.
fn take_front(alloc: Global, begun: &mut Begun, lines: &mut Lines, n: u32) -> Taken
    requires line { IsLine n lines.old }
    requires short { n ≤ most_line }
    ensures takes { Takes result (take n lines.old.left) begun.old begun.new }
    ensures line { GivesLine (take n lines.old.left) lines.old lines.new }
{
    let taken = begun.take(alloc, lines.front(n as usize));
    lines.pass(n as usize);
    taken
}

// The call of a load with these bytes.
fn call_of_load(kind: Kind, bytes: Bytes) -> Call
    ensures { result ≡ load_call kind bytes }
{
    match kind {
        Kind::Cnf => Call::LoadCnf(bytes),
    }
}
