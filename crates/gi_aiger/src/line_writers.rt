//! The parts of a file that both forms write alike. Each call puts its text behind what stands in `out`; for want of memory a part of
//! that text may stand there.
ghost use Rattle.std.specs.Prelude.{◌≡◌, ◌++◌, ◌∷◌, [], length, decimal, OnOk};
ghost use Rattle.std.specs.List.{flat_map};
ghost use Rattle.gi_aiger.specs.Texts.{comment_text, count_text, counts_text, further_text, head_by, number_line, number_lines, reset_text, symbol_line, with_names, with_properties};

use crate::aig::{Aig, Reset, Symbol};
use crate::lists::Edges;
use gi_lit::Edge;
use gi_text::Bytes;
use itoa::Buffer;
use std::alloc::AllocError;

/// Writes a number.
pub fn put_number(out: &mut Bytes, n: u64) -> Result<(), AllocError>
    ensures { OnOk result (out.new ≡ out.old ++ decimal n) }
{
    let mut buffer = Buffer::new();
    out.extend(buffer.format(n).as_bytes())
}

/// Writes a space and a number: one number more in a line.
pub fn put_count(out: &mut Bytes, n: u64) -> Result<(), AllocError>
    ensures { OnOk result (out.new ≡ out.old ++ count_text n) }
{
    out.extend(b" ")?;
    put_number(out, n)
}

// The header's further counts, up to the last that isn't 0.
fn put_further(
    out: &mut Bytes,
    bads: u64,
    cons: u64,
    justice: u64,
    fair: u64,
) -> Result<(), AllocError>
    ensures { OnOk result (out.new ≡ out.old ++ further_text bads cons justice fair) }
{
    if fair == 0 && justice == 0 && cons == 0 && bads == 0 {
        return Ok(());
    }
    put_count(out, bads)?;
    if fair == 0 && justice == 0 && cons == 0 {
        return Ok(());
    }
    put_count(out, cons)?;
    if fair == 0 && justice == 0 {
        return Ok(());
    }
    put_count(out, justice)?;
    if fair == 0 {
        return Ok(());
    }
    put_count(out, fair)
}

// The header's first five counts.
fn put_counts(out: &mut Bytes, aig: &Aig) -> Result<(), AllocError>
    ensures { OnOk result (out.new ≡ out.old ++ counts_text aig.now) }
{
    put_count(out, aig.max as u64)?;
    put_count(out, aig.inputs.len() as u64)?;
    put_count(out, aig.latches.len() as u64)?;
    put_count(out, aig.outs.len() as u64)?;
    put_count(out, aig.gates.len() as u64)
}

/// Writes the header: its word, the five counts, and the further ones up to the last that isn't 0.
pub fn put_head(out: &mut Bytes, word: &[u8], aig: &Aig) -> Result<(), AllocError>
    ensures { OnOk result (out.new ≡ out.old ++ head_by word.now aig.now) }
{
    out.extend(word)?;
    put_counts(out, aig)?;
    put_further(
        out,
        aig.bads.len() as u64,
        aig.cons.len() as u64,
        aig.justice.len() as u64,
        aig.fair.len() as u64,
    )?;
    out.extend(b"\n")
}

fn put_line(out: &mut Bytes, n: u64) -> Result<(), AllocError>
    ensures { OnOk result (out.new ≡ out.old ++ number_line n) }
{
    put_number(out, n)?;
    out.extend(b"\n")
}

/// Writes the code of each edge as a line.
pub fn put_edges(out: &mut Bytes, edges: &[Edge]) -> Result<(), AllocError>
    ensures { OnOk result (out.new ≡ out.old ++ number_lines edges.now) }
{
    for edge in edges {
        put_line(out, edge.code() as u64)?;
    }
    Ok(())
}

/// Writes a latch's reset behind its next state, where it isn't 0; an uninitialised latch names itself.
pub fn put_reset(out: &mut Bytes, lit: Edge, reset: Reset) -> Result<(), AllocError>
    ensures { OnOk result (out.new ≡ out.old ++ reset_text lit reset) }
{
    match reset {
        Reset::Zero => Ok(()),
        Reset::One => put_count(out, 1),
        Reset::Free => put_count(out, lit.code() as u64),
    }
}

// Writes the size of each justice property as a line.
fn put_sizes(out: &mut Bytes, lists: &[Edges]) -> Result<(), AllocError>
    ensures { OnOk result (out.new ≡ out.old ++ flat_map (λ p. number_line (length p)) lists.now) }
{
    for list in lists {
        put_line(out, list.len() as u64)?;
    }
    Ok(())
}

// Writes the codes of all justice properties' edges, each as a line.
fn put_lists(out: &mut Bytes, lists: &[Edges]) -> Result<(), AllocError>
    ensures { OnOk result (out.new ≡ out.old ++ flat_map number_lines lists.now) }
{
    for list in lists {
        put_edges(out, list.as_slice())?;
    }
    Ok(())
}

/// Writes the sections that stand alike in both forms: outputs, bad states, constraints, justice properties by their sizes and
/// literals, and fairness constraints.
pub fn put_properties(out: &mut Bytes, aig: &Aig) -> Result<(), AllocError>
    ensures { OnOk result (out.new ≡ with_properties out.old aig.now) }
{
    put_edges(out, aig.outs.as_slice())?;
    put_edges(out, aig.bads.as_slice())?;
    put_edges(out, aig.cons.as_slice())?;
    put_sizes(out, aig.justice.as_slice())?;
    put_lists(out, aig.justice.as_slice())?;
    put_edges(out, aig.fair.as_slice())
}

fn put_symbol(out: &mut Bytes, symbol: &Symbol) -> Result<(), AllocError>
    ensures { OnOk result (out.new ≡ out.old ++ symbol_line symbol.now) }
{
    out.extend(&[symbol.kind])?;
    put_number(out, symbol.place as u64)?;
    out.extend(b" ")?;
    out.extend(symbol.name.as_slice())?;
    out.extend(b"\n")
}

// Writes the symbols, a line each.
fn put_symbols(out: &mut Bytes, symbols: &[Symbol]) -> Result<(), AllocError>
    ensures { OnOk result (out.new ≡ out.old ++ flat_map symbol_line symbols.now) }
{
    for symbol in symbols {
        put_symbol(out, symbol)?;
    }
    Ok(())
}

// Writes the line `c` and the comment behind it, where there is one.
fn put_comment(out: &mut Bytes, comment: &Option<Bytes>) -> Result<(), AllocError>
    ensures { OnOk result (out.new ≡ out.old ++ comment_text comment.now) }
{
    match comment {
        None => Ok(()),
        Some(text) => {
            out.extend(b"c\n")?;
            out.extend(text.as_slice())
        }
    }
}

/// Writes the symbols, a line each, and behind a line `c` the comment, where there is one.
pub fn put_names(out: &mut Bytes, aig: &Aig) -> Result<(), AllocError>
    ensures { OnOk result (out.new ≡ with_names out.old aig.now) }
{
    put_symbols(out, aig.symbols.as_slice())?;
    put_comment(out, &aig.comment)
}
