// The machine over bytes.
ghost use Rattle.std.specs.Prelude.{◌≡◌, ◌≤◌, ◌∷◌, ◌+◌, length, OnOk};
ghost use Rattle.gi_aiger.specs.declared.phase.Phase.TheVariants as phases;
ghost use Rattle.gi_aiger.specs.Files.{begin, own_gate};
ghost use Rattle.gi_aiger.specs.Groups.{greater_at, lesser_at};
ghost use Rattle.gi_aiger.specs.Header.{header_of};
ghost use Rattle.gi_aiger.specs.Sections.{behind};
ghost use Rattle.gi_aiger.specs.Taking.{add_line};
ghost use Rattle.gi_aiger.specs.Machine.{IsFit, byte_of_gate, byte_of_name, byte_in_line, comment_begins, difference_ends, failed, gate_ends, gates_or_names, greater_ends, head_ends, is_c, is_lenient, last_line, lesser_ends, line_by_phase, line_ends, new_line, no_head, phase_after, phase_from, row_ends, start, symbol_ends, take_byte};
ghost use Rattle.gi_aiger.specs.Named.{add_symbol};
ghost use Rattle.gi_aiger.specs.Limits.{most_items};

use crate::aig::AndGate;
use crate::fault::AigCode;
use crate::groups::read_difference;
use crate::head::{Form, Head, read_header};
use crate::inputs::Inputs;
use crate::named::Named;
use crate::phase::Phase;
use crate::row::Section;
use crate::sections::next_section;
use crate::symbol::read_symbol;
use crate::taken::{Taken, add_line, nothing};
use gi_lit::Edge;
use gi_text::Bytes;
use std::alloc::{AllocError, Global};

/// A machine over the bytes of a file.
#[derive(Drop)]
pub struct Machine {
    pub alloc: Global,
    /// The line that is read, from 1. The bytes of binary gates are no lines.
    pub line: u64,
    pub phase: Phase,
    pub head: Head,
    /// The line or the difference that is read.
    pub word: Bytes,
    pub taken: Taken,
    pub symbols: Named,
    pub comment: Bytes,
}

fn no_head() -> Head
    ensures { result ≡ no_head }
{
    Head {
        form: Form::Ascii,
        max: 0,
        inputs: 0,
        latches: 0,
        outs: 0,
        gates: 0,
        bads: 0,
        cons: 0,
        justice: 0,
        fair: 0,
    }
}

/// A machine in front of a file. Takes no memory.
pub fn new_machine(alloc: Global) -> Machine
    ensures start { result ≡ start alloc }
    ensures fit { IsFit result }
{
    Machine {
        alloc,
        line: 1,
        phase: Phase::Heading,
        head: no_head(),
        word: Bytes::new(alloc),
        taken: nothing(alloc),
        symbols: Named::new(alloc),
        comment: Bytes::new(alloc),
    }
}

// The file is at fault.
fn fail(m: &mut Machine, gate: u32, code: AigCode)
    ensures { m.new ≡ failed m.old gate code }
{
    m.phase = Phase::Failed { gate, code };
    m.word.clear();
}

// The number of the next line. There is one, since memory holds something of each line so far.
fn line_behind(m: &Machine) -> u64
    requires fit { IsFit m.now }
    ensures { result ≡ m.now.line + 1 }
{
    let _symbols = m.symbols.len();
    m.line + 1
}

// The next line begins.
fn begin_line(m: &mut Machine, line: u64)
    requires { line ≡ m.old.line + 1 }
    ensures { m.new ≡ new_line m.old }
{
    m.line = line;
    m.word.clear();
}

// What the header tells. The inputs of the binary form have no lines.
fn begin(alloc: Global, head: &Head) -> Taken
    requires { head.now.inputs ≤ most_items }
    ensures { result ≡ begin head.now }
{
    let mut taken = nothing(alloc);
    match head.form {
        Form::Ascii => {}
        Form::Binary => taken.inputs = Inputs::of_first(alloc, head.inputs as u32),
    }
    taken
}

// Behind the gates before this one.
fn gates_or_names(head: &Head, taken: &Taken) -> Phase
    ensures { result ≡ gates_or_names head.now taken.now }
{
    if (taken.gates.len() as u64) < head.gates {
        Phase::Gates(None)
    } else {
        Phase::Naming
    }
}

// Behind all sections of lines.
fn phase_after(head: &Head, taken: &Taken) -> Phase
    ensures { result ≡ phase_after head.now.form head.now taken.now }
{
    match head.form {
        Form::Ascii => Phase::Naming,
        Form::Binary => gates_or_names(head, taken),
    }
}

// The phase where lines of this section and of those behind it may be to come.
fn phase_from(head: &Head, taken: &Taken, section: Section) -> Phase
    ensures { result ≡ phase_from head.now taken.now (section ∷ behind head.now.form section) }
{
    match next_section(head, taken, section) {
        Some(s) => Phase::Rows(s),
        None => phase_after(head, taken),
    }
}

// The header's line has ended.
fn end_head(m: &mut Machine) -> Result<(), AllocError>
    ensures { OnOk result (m.new ≡ head_ends (header_of m.old.word) m.old) }
{
    match read_header(m.alloc, m.word.as_slice())? {
        Err(code) => {
            fail(m, 0, code);
            Ok(())
        }
        Ok(head) => {
            m.taken = begin(m.alloc, &head);
            m.phase = phase_from(&head, &m.taken, Section::Input);
            m.head = head;
            m.line = 2;
            m.word.clear();
            Ok(())
        }
    }
}

// A line of a section has ended.
fn end_row(m: &mut Machine, section: Section) -> Result<(), AllocError>
    requires fit { IsFit m.old }
    ensures { OnOk result (m.new ≡ row_ends section (add_line m.old.head m.old.taken section m.old.word) m.old) }
{
    let line = line_behind(m);
    match add_line(&mut m.taken, m.alloc, &m.head, section, m.word.as_slice())? {
        Some(code) => {
            fail(m, 0, code);
            Ok(())
        }
        None => {
            m.phase = phase_from(&m.head, &m.taken, section);
            begin_line(m, line);
            Ok(())
        }
    }
}

fn is_c(word: &[u8]) -> bool
    ensures { result ≡ is_c word.now }
{
    word == b"c".as_slice()
}

// The comment begins, with these bytes.
fn begin_comment(m: &mut Machine, bytes: &[u8]) -> Result<(), AllocError>
    ensures { OnOk result (m.new ≡ comment_begins m.old bytes.now) }
{
    m.comment = Bytes::of(m.alloc, bytes)?;
    m.phase = Phase::Comment;
    m.word.clear();
    Ok(())
}

// A symbol's line has ended.
fn end_symbol(m: &mut Machine) -> Result<(), AllocError>
    requires fit { IsFit m.old }
    ensures { OnOk result (m.new ≡ symbol_ends (add_symbol m.old.head m.old.symbols m.old.word) m.old) }
{
    let line = line_behind(m);
    match read_symbol(m.alloc, &m.head, m.word.as_slice())? {
        None => {
            fail(m, 0, AigCode::Symbol);
            Ok(())
        }
        Some(symbol) => {
            if m.symbols.has(symbol.kind, symbol.place) {
                fail(m, 0, AigCode::Symbol);
                return Ok(());
            }
            m.symbols.push(symbol)?;
            begin_line(m, line);
            Ok(())
        }
    }
}

// A line behind the gates has ended.
fn end_name(m: &mut Machine) -> Result<(), AllocError>
    requires fit { IsFit m.old }
    ensures { OnOk result (m.new ≡ line_by_phase phases.Naming m.old) }
{
    if is_c(m.word.as_slice()) {
        return begin_comment(m, b"");
    }
    end_symbol(m)
}

// A line has ended.
#[tactic(auto, unfolding(crate::specs::Machine::line_ends))]
fn end_line(m: &mut Machine) -> Result<(), AllocError>
    requires fit { IsFit m.old }
    ensures { OnOk result (m.new ≡ line_ends m.old) }
{
    match m.phase {
        Phase::Heading => end_head(m),
        Phase::Rows(section) => end_row(m, section),
        Phase::Gates(_) => Ok(()),
        Phase::Naming => end_name(m),
        Phase::Comment => Ok(()),
        Phase::Failed { gate: _, code: _ } => Ok(()),
    }
}

// A byte of a line.
fn take_in_line(m: &mut Machine, byte: u8) -> Result<(), AllocError>
    requires fit { IsFit m.old }
    ensures { OnOk result (m.new ≡ byte_in_line m.old byte) }
{
    if byte == b'\n' {
        return end_line(m);
    }
    m.word.push(byte)
}

// A `c` that no digit and no LF follows.
fn is_lenient(word: &[u8], byte: u8) -> bool
    ensures { result ≡ is_lenient word.now byte }
{
    is_c(word) && !byte.is_ascii_digit() && byte != b'\n'
}

// A byte of a line behind the gates.
fn take_in_name(m: &mut Machine, byte: u8) -> Result<(), AllocError>
    requires fit { IsFit m.old }
    ensures { OnOk result (m.new ≡ byte_of_name m.old byte) }
{
    if is_lenient(m.word.as_slice(), byte) {
        return begin_comment(m, &[byte]);
    }
    take_in_line(m, byte)
}

// The literal that the next binary gate defines.
fn own_gate(m: &Machine) -> u32
    requires inputs { m.now.head.inputs ≤ most_items }
    requires latches { m.now.head.latches ≤ most_items }
    requires gates { length m.now.taken.gates ≤ most_items }
    ensures { result ≡ own_gate m.now.head m.now.taken }
{
    let gates = m.taken.gates.len() as u64;
    (2 * (m.head.inputs + m.head.latches + gates + 1)) as u32
}

// The greater operand, by its difference from the gate.
fn greater_at(own: u32, difference: Option<u32>) -> Result<Edge, AigCode>
    ensures { result ≡ greater_at own difference }
{
    match difference {
        None => Err(AigCode::Literal),
        Some(d) => {
            if d == 0 || own < d {
                return Err(AigCode::Order);
            }
            Ok(Edge::new(own - d))
        }
    }
}

// The other operand, by its difference from the greater one.
fn lesser_at(greater: u32, difference: Option<u32>) -> Result<Edge, AigCode>
    ensures { result ≡ lesser_at greater difference }
{
    match difference {
        None => Err(AigCode::Literal),
        Some(d) => {
            if greater < d {
                return Err(AigCode::Order);
            }
            Ok(Edge::new(greater - d))
        }
    }
}

// A gate's first difference is whole.
fn end_greater(m: &mut Machine, own: u32, greater: Result<Edge, AigCode>)
    requires own { own ≡ own_gate m.old.head m.old.taken }
    ensures { m.new ≡ greater_ends greater m.old }
{
    match greater {
        Err(code) => fail(m, own_number(m, own), code),
        Ok(edge) => {
            m.phase = Phase::Gates(Some(edge));
            m.word.clear();
        }
    }
}

// A gate's second difference is whole.
fn end_lesser(
    m: &mut Machine,
    own: u32,
    greater: Edge,
    lesser: Result<Edge, AigCode>,
) -> Result<(), AllocError>
    requires own { own ≡ own_gate m.old.head m.old.taken }
    ensures { OnOk result (m.new ≡ lesser_ends lesser m.old greater) }
{
    match lesser {
        Err(code) => fail(m, own_number(m, own), code),
        Ok(edge) => {
            m.taken.gates.push(AndGate {
                lhs: Edge::new(own),
                rhs0: greater,
                rhs1: edge,
            })?;
            m.phase = gates_or_names(&m.head, &m.taken);
            m.word.clear();
        }
    }
    Ok(())
}

// The number of the next binary gate.
fn own_number(m: &Machine, own: u32) -> u32
    requires { own ≡ own_gate m.now.head m.now.taken }
    ensures { result ≡ length m.now.taken.gates + 1 }
{
    m.taken.gates.len() as u32 + 1
}

// A difference is whole; its groups are in the word.
fn end_difference(m: &mut Machine, greater: Option<Edge>) -> Result<(), AllocError>
    requires fit { IsFit m.old }
    ensures { OnOk result (m.new ≡ difference_ends greater m.old.word m.old) }
{
    let own = own_gate(m);
    let difference = read_difference(m.word.as_slice());
    match greater {
        None => {
            end_greater(m, own, greater_at(own, difference));
            Ok(())
        }
        Some(edge) => end_lesser(m, own, edge, lesser_at(edge.code(), difference)),
    }
}

// A byte of a binary gate.
fn take_in_gate(m: &mut Machine, greater: Option<Edge>, byte: u8) -> Result<(), AllocError>
    requires fit { IsFit m.old }
    ensures { OnOk result (m.new ≡ byte_of_gate greater m.old byte) }
{
    m.word.push(byte)?;
    if byte < 128 {
        return end_difference(m, greater);
    }
    Ok(())
}

/// The next byte.
#[tactic(auto, unfolding(crate::specs::Machine::take_byte))]
pub fn take(m: &mut Machine, byte: u8) -> Result<(), AllocError>
    requires fit { IsFit m.old }
    ensures { OnOk result (m.new ≡ take_byte m.old byte) }
{
    match m.phase {
        Phase::Heading => take_in_line(m, byte),
        Phase::Rows(_) => take_in_line(m, byte),
        Phase::Gates(greater) => take_in_gate(m, greater, byte),
        Phase::Naming => take_in_name(m, byte),
        Phase::Comment => m.comment.extend(&[byte]),
        Phase::Failed { gate: _, code: _ } => Ok(()), // the first fault decides
    }
}

/// The last line, if it lacks its LF.
pub fn end_last(m: &mut Machine) -> Result<(), AllocError>
    requires fit { IsFit m.old }
    ensures last { OnOk result (m.new ≡ last_line m.old) }
    ensures fit { OnOk result (IsFit m.new) }
{
    if m.word.as_slice().is_empty() {
        return Ok(());
    }
    end_line(m)
}
