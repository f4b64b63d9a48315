// The machine over bytes.
ghost use Rattle.std.specs.Prelude.{◌≡◌, ◌+◌, ◌-◌, ◌^◌, ◌<◌, [], length, OnOk, OnErr};
ghost use Rattle.gi_dimacs.specs.declared.machine.Spot.TheVariants as spots;
ghost use Rattle.gi_dimacs.specs.declared.machine.Phase.TheVariants as phases;
ghost use Rattle.gi_text.specs.Words.{is_white};
ghost use Rattle.gi_dimacs.specs.Content.{format_of};
ghost use Rattle.gi_dimacs.specs.Files.{number_in, is_ask, is_end};
ghost use Rattle.gi_dimacs.specs.Machine.{start, head_counts, body_word, after_ask, ask_phase, after_word, word_ends, after_head, line_ends, take_byte, inside, end_phase, is_first, is_start, in_comment, is_over, last_line, LacksMemory};

use crate::content::{Format, format_of};
use crate::fault::CnfCode;
use crate::head::{Head, check_head, read_head};
use crate::words::{Asking, Taken, begin, word_of_ask, word_of_body};
use gi_lit::Lits;
use gi_text::Bytes;
use std::alloc::{AllocError, Global};

#[derive(Clone, Copy, Debug, PartialEq, Eq)]
pub enum Phase {
    /// Up to the header's end.
    Before(Head),
    /// Behind the header, and in no ask.
    Body,
    /// In an ask, in front of its 0.
    Ask,
    /// Behind the 0 of an ask, in its line.
    Asked,
    /// A `%` ended the file.
    Ended,
    /// The first fault was found.
    Failed(CnfCode),
}

/// Where in its line the machine is.
#[derive(Clone, Copy, Debug, PartialEq, Eq)]
pub enum Spot {
    Start,
    Comment,
    /// In front of the first word's end.
    First,
    /// Behind it.
    Later,
}

/// A machine over the bytes of a file of either format.
#[derive(Drop)]
pub struct Machine {
    pub alloc: Global,
    /// The line that is read, from 1.
    pub line: u64,
    pub phase: Phase,
    pub spot: Spot,
    /// The word that is read. One buffer serves for all words of a file.
    pub word: Bytes,
    pub taken: Taken,
}

pub fn new_machine(alloc: Global, format: Format) -> Machine
    ensures { result ≡ start alloc format }
{
    Machine {
        alloc,
        line: 1,
        phase: Phase::Before(Head::Nothing),
        spot: Spot::Start,
        word: Bytes::new(alloc),
        taken: begin(alloc, format, 0),
    }
}

// A word of the body has ended.
#[tactic(auto, unfolding(crate::specs::Machine::body_word))]
fn end_body_word(m: &mut Machine) -> Result<(), AllocError>
    ensures { OnOk result (m.new ≡ body_word m.old) }
{
    if is_first(m.spot) && is_end(m.word.as_slice()) {
        let phase = end_of(&m.taken.begun);
        pass_word(m, phase);
        return Ok(());
    }
    if is_first(m.spot) && is_ask(format_in(m), m.word.as_slice()) {
        let phase = ask_of(&m.taken.begun);
        pass_word(m, phase);
        return Ok(());
    }
    match word_of_body(&mut m.taken, m.alloc, m.word.as_slice())? {
        Some(code) => pass_word(m, Phase::Failed(code)),
        None => {
            let phase = m.phase;
            pass_word(m, phase);
        }
    }
    Ok(())
}

// A word of an ask has ended.
fn end_ask_word(m: &mut Machine) -> Result<(), AllocError>
    ensures { OnOk result (m.new ≡ after_ask (number_in m.old.word) m.old) }
{
    match word_of_ask(&mut m.taken, m.alloc, m.word.as_slice())? {
        Asking::Goes => pass_word(m, Phase::Ask),
        Asking::Ends => pass_word(m, Phase::Asked),
        Asking::Stops(code) => pass_word(m, Phase::Failed(code)),
    }
    Ok(())
}

// The machine goes on behind the word.
fn pass_word(m: &mut Machine, phase: Phase)
    ensures { m.new ≡ after_word m.old phase m.old.taken }
{
    m.phase = phase;
    m.word.clear();
    m.spot = Spot::Later;
}

// The file's format.
fn format_in(m: &Machine) -> Format
    ensures { result ≡ format_of m.now.taken.content }
{
    format_of(&m.taken.content)
}

fn is_end(word: &[u8]) -> bool
    ensures { result ≡ is_end word.now }
{
    word == b"%".as_slice()
}

fn is_ask(format: Format, word: &[u8]) -> bool
    ensures { result ≡ is_ask format word.now }
{
    match format {
        Format::Cnf => false,
        Format::Icnf => word == b"a".as_slice(),
    }
}

// A `%` ends a file.
fn end_of(begun: &Lits) -> Phase
    ensures { result ≡ end_phase begun.now }
{
    if begun.as_slice().is_empty() {
        Phase::Ended
    } else {
        Phase::Failed(CnfCode::Unterminated)
    }
}

// An `a` begins an ask.
fn ask_of(begun: &Lits) -> Phase
    ensures { result ≡ ask_phase begun.now }
{
    match begun.as_slice() {
        [] => Phase::Ask,
        _ => Phase::Failed(CnfCode::Unterminated),
    }
}

fn is_first(spot: Spot) -> bool
    ensures { result ≡ is_first spot }
{
    match spot {
        Spot::First => true,
        Spot::Start => false,
        Spot::Comment => false,
        Spot::Later => false,
    }
}

fn is_start(spot: Spot) -> bool
    ensures { result ≡ is_start spot }
{
    match spot {
        Spot::Start => true,
        Spot::First => false,
        Spot::Comment => false,
        Spot::Later => false,
    }
}

fn in_comment(spot: Spot) -> bool
    ensures { result ≡ in_comment spot }
{
    match spot {
        Spot::Comment => true,
        Spot::First => false,
        Spot::Start => false,
        Spot::Later => false,
    }
}

fn is_over(phase: Phase) -> bool
    ensures { result ≡ is_over phase }
{
    match phase {
        Phase::Ended => true,
        Phase::Failed(_) => true,
        Phase::Before(_) => false,
        Phase::Body => false,
        Phase::Ask => false,
        Phase::Asked => false,
    }
}

fn is_white_byte(b: u8) -> bool
    ensures { result ≡ is_white b }
{
    b == b' ' || b == b'\t' || b == b'\r'
}

// A word has ended, if one was begun.
#[tactic(auto, unfolding(crate::specs::Machine::word_ends))]
fn end_word(m: &mut Machine) -> Result<(), AllocError>
    ensures ok { OnOk result (m.new ≡ word_ends m.old) }
    ensures err { OnErr result (0 < length m.old.word) }
{
    if m.word.as_slice().is_empty() {
        return Ok(());
    }
    match m.phase {
        Phase::Before(head) => {
            let format = format_in(m);
            let head = read_head(format, head, m.word.as_slice());
            pass_word(m, Phase::Before(head));
            Ok(())
        }
        Phase::Body => end_body_word(m),
        Phase::Ask => end_ask_word(m),
        Phase::Asked => {
            pass_word(m, Phase::Failed(CnfCode::Word));
            Ok(())
        }
        Phase::Ended => Ok(()),
        Phase::Failed(_) => Ok(()), // the first fault decides
    }
}

// A line has ended.
#[tactic(auto, unfolding(crate::specs::Machine::line_ends))]
fn end_line(m: &mut Machine) -> Result<(), AllocError>
    ensures ok { OnOk result (m.new ≡ line_ends m.old) }
    ensures err { OnErr result (m.old.line ≡ 2 ^ 64 - 1) }
{
    match m.phase {
        Phase::Before(Head::Nothing) => next_line(m),
        Phase::Body => next_line(m),
        Phase::Before(head) => end_head(m, head),
        Phase::Ask => {
            m.phase = Phase::Failed(CnfCode::Unterminated);
            Ok(())
        }
        Phase::Asked => {
            m.phase = Phase::Body;
            next_line(m)
        }
        Phase::Ended => Ok(()),
        Phase::Failed(_) => Ok(()),
    }
}

// The header's line has ended.
fn end_head(m: &mut Machine, head: Head) -> Result<(), AllocError>
    ensures ok { OnOk result (m.new ≡ after_head (head_counts head) m.old) }
    ensures err { OnErr result (m.old.line ≡ 2 ^ 64 - 1) }
{
    match check_head(head) {
        Ok(vars) => {
            m.phase = Phase::Body;
            m.taken = begin(m.alloc, format_in(m), vars);
            next_line(m)
        }
        Err(code) => {
            m.phase = Phase::Failed(code);
            Ok(())
        }
    }
}

// The next line begins. Behind line 2^64 - 1 there is no number for it.
fn next_line(m: &mut Machine) -> Result<(), AllocError>
    ensures ok { OnOk result (m.new ≡ record m.old { line = m.old.line + 1; spot = spots.Start }) }
    ensures err { OnErr result (m.old.line ≡ 2 ^ 64 - 1) }
{
    if m.line == u64::MAX {
        return Err(AllocError);
    }
    m.line += 1;
    m.spot = Spot::Start;
    Ok(())
}

/// The next byte.
#[tactic(auto, unfolding(crate::specs::Machine::take_byte))]
pub fn take(m: &mut Machine, byte: u8) -> Result<(), AllocError>
    ensures { OnOk result (m.new ≡ take_byte m.old byte) }
{
    if is_over(m.phase) {
        return Ok(());
    }
    if byte == b'\n' {
        end_word(m)?;
        return end_line(m);
    }
    if in_comment(m.spot) {
        return Ok(());
    }
    if is_white_byte(byte) {
        end_word(m)?;
        go_inside(m);
        return Ok(());
    }
    if is_start(m.spot) && byte == b'c' {
        m.spot = Spot::Comment;
        return Ok(());
    }
    m.word.push(byte)?;
    go_inside(m);
    Ok(())
}

fn go_inside(m: &mut Machine)
    ensures { m.new ≡ inside m.old }
{
    match m.spot {
        Spot::Start => m.spot = Spot::First,
        Spot::Comment => {}
        Spot::First => {}
        Spot::Later => {}
    }
}

/// The last line, if it lacks its LF. It takes memory only for a word that has not ended.
#[tactic(auto, unfolding(crate::specs::Machine::word_ends))]
pub fn end_last(m: &mut Machine) -> Result<(), AllocError>
    ensures ok { OnOk result (m.new ≡ last_line m.old) }
    ensures err { OnErr result (LacksMemory m.old) }
{
    if is_start(m.spot) {
        return Ok(());
    }
    if m.word.as_slice().is_empty() {
        return end_line(m);
    }
    end_word(m)?;
    end_line(m)
}
