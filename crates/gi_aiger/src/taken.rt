// What the lines between the header and the symbols said so far.
ghost use Rattle.std.specs.Prelude.{◌≡◌, ◌≤◌, ◌<◌, ◌+◌, [], true, length, IfOk, OnOk};
ghost use Rattle.gi_aiger.specs.Rows.{defined_by};
ghost use Rattle.gi_aiger.specs.Rows.{literals_in};
ghost use Rattle.gi_aiger.specs.Marks.{all_used, defined, marked, used_literal};
ghost use Rattle.gi_aiger.specs.Taking.{Fits, Gives, add_by, add_line, add_row, is_defined, is_known, left_out, nothing, own_latch, room, to_come, with_row};
ghost use Rattle.gi_aiger.specs.declared.head.Form.TheVariants as forms;
ghost use Rattle.gi_aiger.specs.Header.{is_within};
ghost use Rattle.gi_aiger.specs.Limits.{most_items};

use crate::fault::AigCode;
use crate::head::{Form, Head};
use crate::inputs::Inputs;
use crate::limits::MOST_ITEMS;
use crate::lists::{Edges, Gates, Latches, Sizes};
use crate::mark::Mark;
use crate::marks::Marks;
use crate::row::{Row, Section, read_row};
use gi_lit::Edge;
use std::alloc::{AllocError, Global};

/// What the lines between the header and the symbols said so far.
#[derive(Drop)]
pub struct Taken {
    pub inputs: Inputs,
    pub latches: Latches,
    pub outs: Edges,
    pub bads: Edges,
    pub cons: Edges,
    /// The sizes of the justice properties.
    pub sizes: Sizes,
    /// Their sum.
    pub total: u32,
    /// The literals of the justice properties, one property after another.
    pub justice: Edges,
    pub fair: Edges,
    pub gates: Gates,
    /// Which variables are used and which are defined.
    pub marks: Marks,
}

/// Nothing. Takes no memory.
pub fn nothing(alloc: Global) -> Taken
    ensures { result ≡ nothing }
{
    Taken {
        inputs: Inputs::new(alloc),
        latches: Latches::new(alloc),
        outs: Edges::new(alloc),
        bads: Edges::new(alloc),
        cons: Edges::new(alloc),
        sizes: Sizes::new(alloc),
        total: 0,
        justice: Edges::new(alloc),
        fair: Edges::new(alloc),
        gates: Gates::new(alloc),
        marks: Marks::new(alloc),
    }
}

// A line's row goes to its list.
fn push_row(taken: &mut Taken, row: Row) -> Result<(), AllocError>
    requires sum { taken.old.total ≤ most_items }
    requires fits { Fits (room taken.old) row }
    ensures { OnOk result (taken.new ≡ with_row taken.old row) }
{
    match row {
        Row::Input(l) => taken.inputs.push(l),
        Row::Latch(l) => taken.latches.push(l),
        Row::Out(l) => taken.outs.push(l),
        Row::Bad(l) => taken.bads.push(l),
        Row::Con(l) => taken.cons.push(l),
        Row::Size(n) => {
            taken.total += n;
            taken.sizes.push(n)
        }
        Row::Justice(l) => taken.justice.push(l),
        Row::Fair(l) => taken.fair.push(l),
        Row::Gate(g) => taken.gates.push(g),
    }
}

// The variable that a line defines.
fn defined_by(row: &Row) -> Option<u32>
    ensures { result ≡ defined_by row.now }
{
    match row {
        Row::Input(l) => Some(l.node()),
        Row::Latch(l) => Some(l.lit.node()),
        Row::Gate(g) => Some(g.lhs.node()),
        Row::Out(_) => None,
        Row::Bad(_) => None,
        Row::Con(_) => None,
        Row::Size(_) => None,
        Row::Justice(_) => None,
        Row::Fair(_) => None,
    }
}

fn is_defined(mark: Mark) -> bool
    ensures { result ≡ is_defined mark }
{
    match mark {
        Mark::Fresh => false,
        Mark::Used => false,
        Mark::Defined => true,
    }
}

// Whether the variable was defined before.
fn is_known(marks: &Marks, v: Option<u32>) -> bool
    ensures { result ≡ is_known v marks.now }
{
    match v {
        None => false,
        Some(v) => is_defined(marks.mark_at(v)),
    }
}

fn define(marks: &mut Marks, v: Option<u32>) -> Result<(), AllocError>
    ensures { OnOk result (marks.new ≡ defined v marks.old) }
{
    match v {
        None => Ok(()),
        Some(v) => marks.define(v),
    }
}

// A line uses a literal.
fn use_literal(marks: &mut Marks, l: Edge) -> Result<(), AllocError>
    ensures { OnOk result (marks.new ≡ used_literal l marks.old) }
{
    if l.node() == 0 {
        return Ok(());
    }
    marks.use_one(l.node())
}

// A line uses its literals.
fn use_all(marks: &mut Marks, row: &Row) -> Result<(), AllocError>
    ensures { OnOk result (marks.new ≡ all_used (literals_in row.now) marks.old) }
{
    match row {
        Row::Input(_) => Ok(()),
        Row::Latch(l) => use_literal(marks, l.next),
        Row::Out(l) => use_literal(marks, *l),
        Row::Bad(l) => use_literal(marks, *l),
        Row::Con(l) => use_literal(marks, *l),
        Row::Size(_) => Ok(()),
        Row::Justice(l) => use_literal(marks, *l),
        Row::Fair(l) => use_literal(marks, *l),
        Row::Gate(g) => {
            use_literal(marks, g.rhs0)?;
            use_literal(marks, g.rhs1)
        }
    }
}

// The marks behind a line.
fn mark(marks: &mut Marks, row: &Row) -> Result<(), AllocError>
    ensures { OnOk result (marks.new ≡ marked row.now marks.old) }
{
    define(marks, defined_by(row))?;
    use_all(marks, row)
}

// The latch and gate lines that are still to come behind a line.
fn to_come_after(head: &Head, taken: &Taken, row: &Row) -> u64
    requires latches { head.now.latches ≤ most_items }
    requires gates { head.now.gates ≤ most_items }
    ensures { result ≡ to_come head.now (with_row taken.now row.now) }
{
    let latches = head.latches.saturating_sub(taken.latches.len() as u64);
    let gates = head.gates.saturating_sub(taken.gates.len() as u64);
    match row {
        Row::Latch(_) => latches.saturating_sub(1) + gates,
        Row::Gate(_) => latches + gates.saturating_sub(1),
        Row::Input(_) => latches + gates,
        Row::Out(_) => latches + gates,
        Row::Bad(_) => latches + gates,
        Row::Con(_) => latches + gates,
        Row::Size(_) => latches + gates,
        Row::Justice(_) => latches + gates,
        Row::Fair(_) => latches + gates,
    }
}

// A line is wrong: the marks are of no use any more.
fn forget(taken: &mut Taken, alloc: Global, code: AigCode) -> AigCode
    ensures code { result ≡ code }
    ensures taken { taken.new ≡ record taken.old { marks = [] } }
{
    taken.marks = Marks::new(alloc);
    code
}

// A line of the ASCII form that is right by itself, behind those so far.
#[tactic(auto, using(crate::proofs::Takes::marks_stay))]
fn add_checked(
    taken: &mut Taken,
    alloc: Global,
    head: &Head,
    row: Row,
) -> Result<Option<AigCode>, AllocError>
    requires latches { head.now.latches ≤ most_items }
    requires gates { head.now.gates ≤ most_items }
    requires sum { taken.old.total ≤ most_items }
    requires fits { Fits (room taken.old) row }
    ensures { IfOk result (λ code. Gives code (add_by forms.Ascii head.now taken.old row) taken.old taken.new) }
{
    if is_known(&taken.marks, defined_by(&row)) {
        return Ok(Some(forget(taken, alloc, AigCode::Defined)));
    }
    mark(&mut taken.marks, &row)?;
    if to_come_after(head, taken, &row) < taken.marks.missing() as u64 {
        return Ok(Some(forget(taken, alloc, AigCode::Undefined)));
    }
    push_row(taken, row)?;
    Ok(None)
}

// A line that is right by itself, behind those so far.
fn add_row(
    taken: &mut Taken,
    alloc: Global,
    head: &Head,
    row: Row,
) -> Result<Option<AigCode>, AllocError>
    requires latches { head.now.latches ≤ most_items }
    requires gates { head.now.gates ≤ most_items }
    requires sum { taken.old.total ≤ most_items }
    requires fits { Fits (room taken.old) row }
    ensures { IfOk result (λ code. Gives code (add_row head.now taken.old row) taken.old taken.new) }
{
    match head.form {
        Form::Ascii => add_checked(taken, alloc, head, row),
        Form::Binary => {
            push_row(taken, row)?;
            Ok(None)
        }
    }
}

// The number that a line leaves out.
fn left_out(form: Form, section: Section, own: u64) -> Option<u64>
    ensures { result ≡ left_out form section own }
{
    match form {
        Form::Ascii => None,
        Form::Binary => match section {
            Section::Latch => Some(own),
            Section::Input => None,
            Section::Out => None,
            Section::Bad => None,
            Section::Con => None,
            Section::Size => None,
            Section::Justice => None,
            Section::Fair => None,
            Section::Gate => None,
        },
    }
}

// The literal of the next latch in the binary form.
fn own_latch(head: &Head, taken: &Taken) -> u64
    requires inputs { head.now.inputs ≤ most_items }
    requires latches { length taken.now.latches ≤ most_items }
    ensures { result ≡ own_latch head.now taken.now }
{
    2 * (head.inputs + taken.latches.len() as u64 + 1)
}

/// A line of a section, behind those so far. `Some` is the line's first fault: then what those before it said still stands.
pub fn add_line(
    taken: &mut Taken,
    alloc: Global,
    head: &Head,
    section: Section,
    line: &[u8],
) -> Result<Option<AigCode>, AllocError>
    requires within { is_within head.now ≡ true }
    requires sum { taken.old.total ≤ most_items }
    requires latches { length taken.old.latches ≤ most_items }
    ensures { IfOk result (λ code. Gives code (add_line head.now taken.old section line.now) taken.old taken.new) }
{
    let room = MOST_ITEMS - u64::from(taken.total);
    let own = left_out(head.form, section, own_latch(head, taken));
    match read_row(alloc, head.max, room, section, own, line)? {
        Err(code) => Ok(Some(forget(taken, alloc, code))),
        Ok(row) => add_row(taken, alloc, head, row),
    }
}
