// Lines that are joined.
ghost use Rattle.std.specs.Prelude.{◌≡◌, ◌+◌, ◌<◌, ◌≤◌, ◌++◌, ◌∷◌, ℕ, List, [], length, take, false, true, IsTrue, ◌↔◌, MatchOption, OnOk};
ghost use Rattle.gi_text.specs.Words.{words_of};
ghost use Rattle.gi_wire.specs.CallRead.{EndsAtPlus, ReadsCall};
ghost use Rattle.gi_wire.specs.Grammar.{has_list};
ghost use Rattle.gi_wire.specs.Items.{alone, goes_on_by};
ghost use Rattle.gi_wire.specs.Limits.{most_joined, most_line};
ghost use Rattle.gi_wire.specs.Taken.{Takes};

use crate::call::{CallRead, Load, read_call};
use crate::going_on::{may_go_on, plus_at};
use gi_model::Call;
use gi_text::Bytes;
use std::alloc::{AllocError, Global};
use std::marker::Model;

/// The most bytes of lines that are joined, their LFs not counted.
pub const MAX_JOINED: u32 = 67_108_864;

// What comes of a line, with those that it is joined to.
#[derive(Drop)]
pub enum Taken {
    // It goes on.
    GoesOn,
    // They have too many bytes.
    Long,
    Call(Call),
    Load(Load),
    // They are not in the grammar.
    Syntax,
    NoMemory,
}

// The lines of an item before the one at hand, if there are any.
#[derive(Drop)]
pub struct Begun {
    // The number of the item's first line.
    first: u64,
    // The text of the lines, with a space in place of each `+`.
    text: Bytes,
    // How many bytes they have.
    size: u32,
}

impl Model for Begun {
    ghost use Rattle.gi_text.specs.Words.{words_of};
    ghost use Rattle.gi_wire.specs.Holds.{HoldsText};
    ghost use Rattle.gi_wire.specs.Items.{Joined};

    ghost Value = { Joined };

    ghost view = { λ b. record { first = b.first; words = words_of b.text; size = b.size } };

    ghost invariant = { λ b. HoldsText b.text b.size };
}

impl Begun {
    // The line of this number is the first of its item.
    pub fn new(alloc: Global, first: u64) -> Begun
        ensures { result ≡ alone first }
    {
        Begun {
            first,
            text: Bytes::new(alloc),
            size: 0,
        }
    }

    // The number of the item's first line.
    pub fn first(&self) -> u64
        ensures { result ≡ self.now.first }
    {
        self.first
    }

    // Whether no line is joined to the one at hand.
    pub fn is_empty(&self) -> bool
        ensures none { IsTrue result ↔ (self.now.words ≡ []) }
        ensures list { result ≡ false → has_list self.now.words ≡ true }
    {
        self.text.as_slice().is_empty()
    }

    // Takes the next line.
    pub fn take(&mut self, alloc: Global, line: &[u8]) -> Taken
        requires { length line.now ≤ most_line }
        ensures { Takes result line.now self.old self.new }
    {
        if self.size + line.len() as u32 > MAX_JOINED {
            return Taken::Long;
        }
        match self.find_plus(line) {
            Some(place) => self.join(line, place),
            None => self.read(alloc, line),
        }
    }

    // The place of the `+` with which a line goes on.
    fn find_plus(&self, line: &[u8]) -> Option<u32>
        requires { length line.now ≤ most_line }
        ensures { MatchOption result (goes_on_by self.now.words (words_of line.now) ≡ false)
            (λ place. (has_list (self.now.words ++ words_of line.now) ≡ true) × EndsAtPlus line.now place) }
    {
        if self.is_empty() {
            return find_first_plus(line);
        }
        plus_at(line)
    }

    // Joins a line that goes on, with its `+` at this place.
    fn join(&mut self, line: &[u8], place: u32) -> Taken
        requires few { self.old.size + length line.now ≤ most_joined }
        requires list { has_list (self.old.words ++ words_of line.now) ≡ true }
        requires plus { EndsAtPlus line.now place }
        ensures { Takes result line.now self.old self.new }
    {
        match add_line(&mut self.text, line, place as usize) {
            Ok(()) => {
                self.size += line.len() as u32;
                Taken::GoesOn
            }
            Err(_) => {
                self.text.clear();
                Taken::NoMemory
            }
        }
    }

    // Reads a line that is the last of its item.
    fn read(&mut self, alloc: Global, line: &[u8]) -> Taken
        requires few { self.old.size + length line.now ≤ most_joined }
        requires ends { goes_on_by self.old.words (words_of line.now) ≡ false }
        ensures { Takes result line.now self.old self.new }
    {
        match self.read_all(alloc, line) {
            CallRead::Call(call) => Taken::Call(call),
            CallRead::Load { kind, len } => Taken::Load(Load { kind, len }),
            CallRead::Syntax => Taken::Syntax,
            CallRead::NoMemory => Taken::NoMemory,
        }
    }

    // Reads all lines as one, and lets them go.
    fn read_all(&mut self, alloc: Global, line: &[u8]) -> CallRead
        ensures { ReadsCall result (self.old.words ++ words_of line.now) }
    {
        let read = read_behind(alloc, &mut self.text, line);
        self.text.clear();
        read
    }
}

// The place of the `+` with which the first line of an item goes on.
fn find_first_plus(line: &[u8]) -> Option<u32>
    requires { length line.now ≤ most_line }
    ensures { MatchOption result (goes_on_by [] (words_of line.now) ≡ false)
        (λ place. (has_list (words_of line.now) ≡ true) × EndsAtPlus line.now place) }
{
    if may_go_on(line) {
        return plus_at(line);
    }
    None
}

// Adds a line whose last word is a `+` at this place.
fn add_line(text: &mut Bytes, line: &[u8], place: usize) -> Result<(), AllocError>
    requires { place ≤ length line.now }
    ensures { OnOk result (text.new ≡ (text.old ++ take place line.now) ++ 32 ∷ []) }
{
    text.extend(front(line, place))?;
    text.push(b' ')
}

// What stands up to a place.
fn front(line: &[u8], place: usize) -> &[u8]
    requires { place ≤ length line.now }
    ensures { result.now ≡ take place line.now }
{
    &line[..place]
}

// Reads a line behind this text, to which it is added.
fn read_behind(alloc: Global, text: &mut Bytes, line: &[u8]) -> CallRead
    requires list { 0 < length text.old → has_list (words_of text.old) ≡ true }
    requires words { (more : List ℕ)
        → words_of (text.old ++ more) ≡ words_of text.old ++ words_of more }
    ensures { ReadsCall result (words_of text.old ++ words_of line.now) }
{
    if text.as_slice().is_empty() {
        return read_call(alloc, line);
    }
    match text.extend(line) {
        Ok(()) => read_call(alloc, text.as_slice()),
        Err(_) => CallRead::NoMemory,
    }
}
