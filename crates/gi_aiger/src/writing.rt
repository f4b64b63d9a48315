// The writer of the ASCII form.
ghost use Rattle.std.specs.Prelude.{◌≡◌, ◌++◌, OnOk, IfOk};
ghost use Rattle.std.specs.List.{flat_map};
ghost use Rattle.gi_aiger.specs.Texts.{ascii_text, gate_line, latch_line};
ghost use Rattle.gi_aiger.specs.Good.{IsGood};
ghost use Rattle.gi_aiger.specs.Relation.{IsAscii};

use crate::aig::{Aig, AndGate, Latch};
use crate::line_writers::{
    put_count, put_edges, put_head, put_names, put_number, put_properties, put_reset,
};
use gi_text::Bytes;
use std::alloc::{AllocError, Global};

fn put_latch(out: &mut Bytes, latch: Latch) -> Result<(), AllocError>
    ensures { OnOk result (out.new ≡ out.old ++ latch_line latch) }
{
    put_number(out, latch.lit.code() as u64)?;
    put_count(out, latch.next.code() as u64)?;
    put_reset(out, latch.lit, latch.reset)?;
    out.extend(b"\n")
}

fn put_latches(out: &mut Bytes, latches: &[Latch]) -> Result<(), AllocError>
    ensures { OnOk result (out.new ≡ out.old ++ flat_map latch_line latches.now) }
{
    for latch in latches {
        put_latch(out, *latch)?;
    }
    Ok(())
}

fn put_gate(out: &mut Bytes, gate: AndGate) -> Result<(), AllocError>
    ensures { OnOk result (out.new ≡ out.old ++ gate_line gate) }
{
    put_number(out, gate.lhs.code() as u64)?;
    put_count(out, gate.rhs0.code() as u64)?;
    put_count(out, gate.rhs1.code() as u64)?;
    out.extend(b"\n")
}

fn put_gates(out: &mut Bytes, gates: &[AndGate]) -> Result<(), AllocError>
    ensures { OnOk result (out.new ≡ out.old ++ flat_map gate_line gates.now) }
{
    for gate in gates {
        put_gate(out, *gate)?;
    }
    Ok(())
}

// The text of a value in the ASCII form.
#[tactic(auto, unfolding(crate::specs::Texts::ascii_text))]
fn text_of(alloc: Global, aig: &Aig) -> Result<Bytes, AllocError>
    ensures { IfOk result (λ bytes. bytes ≡ ascii_text aig.now) }
{
    let inputs = aig.inputs.listed(alloc)?;
    let mut out = Bytes::new(alloc);
    put_head(&mut out, b"aag", aig)?;
    put_edges(&mut out, inputs.as_slice())?;
    put_latches(&mut out, aig.latches.as_slice())?;
    put_properties(&mut out, aig)?;
    put_gates(&mut out, aig.gates.as_slice())?;
    put_names(&mut out, aig)?;
    Ok(out)
}

/// The text of a value in the ASCII form of AIGER 1.9: the header with the further counts up to the last that isn't 0, the
/// sections in order, a latch's reset where it isn't 0, the symbols, and the comment behind a line `c`. The text says the
/// value, if some file does.
pub fn write_ascii(alloc: Global, aig: &Aig) -> Result<Bytes, AllocError>
    ensures text { IfOk result (λ bytes. bytes ≡ ascii_text aig.now) }
    ensures said { IsGood aig.now → IfOk result (λ bytes. IsAscii aig.now bytes) }
{
    text_of(alloc, aig)
}
