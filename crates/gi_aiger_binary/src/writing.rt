// The writer of the binary form.
ghost use Rattle.std.specs.Prelude.{◌≡◌, ◌++◌, OnOk, IfOk};
ghost use Rattle.std.specs.List.{flat_map};
ghost use Rattle.gi_aiger_binary.specs.Texts.{binary_text, gate_text, latch_line};
ghost use Rattle.gi_aiger_binary.specs.Sound.{IsReadable, IsWritable};
ghost use Rattle.gi_aiger_binary.specs.Written.{AreReadBack, written};

use crate::differences::put_difference;
use crate::renumbering::renumber;
use gi_aiger::line_writers::{put_head, put_names, put_number, put_properties, put_reset};
use gi_aiger::{Aig, AndGate, Latch};
use gi_text::Bytes;
use std::alloc::{AllocError, Global};

fn put_latch(out: &mut Bytes, latch: Latch) -> Result<(), AllocError>
    ensures { OnOk result (out.new ≡ out.old ++ latch_line latch) }
{
    put_number(out, latch.next.code() as u64)?;
    put_reset(out, latch.lit, latch.reset)?;
    out.extend(b"\n")
}

fn put_latches(out: &mut Bytes, latches: &[Latch]) -> Result<(), AllocError>
    ensures { OnOk result (out.new ≡ out.old ++ flat_map latch_line latches.now) }
{
    for latch in latches {
        put_latch(out, *latch)?;
    }
    Ok(())
}

// A gate's two differences.
fn put_gate(out: &mut Bytes, gate: AndGate) -> Result<(), AllocError>
    ensures { OnOk result (out.new ≡ out.old ++ gate_text gate) }
{
    let (lhs, greater, lesser) = (gate.lhs.code(), gate.rhs0.code(), gate.rhs1.code());
    put_difference(out, lhs.saturating_sub(greater))?;
    put_difference(out, greater.saturating_sub(lesser))
}

fn put_gates(out: &mut Bytes, gates: &[AndGate]) -> Result<(), AllocError>
    ensures { OnOk result (out.new ≡ out.old ++ flat_map gate_text gates.now) }
{
    for gate in gates {
        put_gate(out, *gate)?;
    }
    Ok(())
}

// The text of a value that is numbered already.
#[tactic(auto, unfolding(crate::specs::Texts::binary_text))]
fn text_of(alloc: Global, aig: &Aig) -> Result<Bytes, AllocError>
    ensures { IfOk result (λ bytes. bytes ≡ binary_text aig.now) }
{
    let mut out = Bytes::new(alloc);
    put_head(&mut out, b"aig", aig)?;
    put_latches(&mut out, aig.latches.as_slice())?;
    put_properties(&mut out, aig)?;
    put_gates(&mut out, aig.gates.as_slice())?;
    put_names(&mut out, aig)?;
    Ok(out)
}

/// The text of a value in the binary form of AIGER 1.9, its variables numbered anew as `renumber`
/// does: the header with the further counts up to the last that isn't 0, the sections in order,
/// without lines of inputs and without the latches' own literals, the gates as differences in their
/// shortest spelling, the symbols, and the comment behind a line `c`. Read again, the text of a
/// sound value gives the value as `renumber` gives it; each value that was read is sound. What is
/// asked of the value is what `renumber` asks.
pub fn write_binary(alloc: Global, aig: &Aig) -> Result<Bytes, AllocError>
    requires { IsWritable aig.now }
    ensures text { IfOk result (λ bytes. bytes ≡ written aig.now) }
    ensures read { IsReadable aig.now → IfOk result (AreReadBack aig.now) }
{
    let numbered = renumber(alloc, aig)?;
    text_of(alloc, &numbered)
}
