ghost use Rattle.std.specs.Prelude.{◌≡◌, ◌+◌, ◌<◌, ◌≤◌, [], IfOk, OnOk, OnErr};
ghost use Rattle.gi_circuit.specs.Frames.{frame_of};
ghost use Rattle.gi_circuit.specs.Encoding.{IsUnrolled};
ghost use Rattle.gi_unroll.specs.Frames.{IsUnrolling, Unrolled, unrolled, most_of, IsFrame, with_frame, top_after, KeepsEncoding, KeepsLiterals, NamesVariables, IsShort};
ghost use Rattle.gi_lit.specs.Literals.{max_var};

use crate::builder::Builder;
use crate::extend::{Extended, extend};
use crate::frame::Frame;
use gi_circuit::Circuit;
use gi_lit::Edge;
use std::alloc::{AllocError, Global};
use std::marker::Model;

/// A circuit and its frames so far.
#[derive(Drop)]
pub struct Unroll {
    circuit: Circuit,
    builder: Builder,
    latches: Vec<Edge>,
    made: u32,
    top: u32,
}

impl Model for Unroll {
    ghost use Rattle.gi_unroll.specs.Steps.{frames_of};
    ghost use Rattle.gi_unroll.specs.Frames.{Unrolled, IsUnrolling};

    ghost Value = { Unrolled };

    ghost view = { λ u. record {
      system = u.circuit;
      frames = frames_of u.builder u.latches.items u.made;
      top = u.top;
    } };

    ghost invariant = { λ u. IsUnrolling (record {
      system = u.circuit;
      frames = frames_of u.builder u.latches.items u.made;
      top = u.top;
    }) };
}

impl Unroll {
    /// With no frame yet. Then no clause is given, and none encodes the frames.
    pub fn new(alloc: Global, circuit: Circuit) -> Unroll
        ensures new { result ≡ unrolled circuit }
        ensures encodes { IsUnrolled circuit [] 0 result.frames }
    {
        Unroll {
            circuit,
            builder: Builder::new(alloc),
            latches: Vec::new(alloc),
            made: 0,
            top: 0,
        }
    }

    /// The circuit.
    pub fn circuit(&self) -> &Circuit
        ensures circuit { result.now ≡ self.now.system }
        ensures kept { IsUnrolling self.now }
    {
        &self.circuit
    }

    /// How many variables a frame takes at most: one more than there are inputs, latches and gates.
    pub fn bound(&self) -> u32
        ensures { result ≡ most_of self.now.system }
    {
        let counts = self.circuit.counts();
        1 + counts.inputs + counts.latches + counts.gates
    }

    /// How many frames were made.
    pub fn made(&self) -> u32
        ensures { result ≡ self.now.frames.made }
    {
        self.made
    }

    /// The greatest variable that a frame took, or 0.
    pub fn top(&self) -> u32
        ensures { result ≡ self.now.top }
    {
        self.top
    }

    /// The next frame. Its variables begin at `next_var`, which must be above `top` and leave room
    /// for
    /// `bound` variables up to `MAX_VAR`. Its literals are of these variables and of those that earlier frames
    /// took. It has at most one clause more than three for each gate of the circuit. After an
    /// error, which is want of memory, all is as before.
    pub fn frame(&mut self, next_var: u32) -> Result<Frame, AllocError>
        requires above { self.old.top < next_var }
        requires room { next_var + most_of self.old.system ≤ max_var + 1 }
        requires more { self.old.frames.made < 4294967295 }
        ensures frame { IfOk result
            (λ r. IsFrame r self.old.frames.made
            (frame_of self.old.system self.old.frames next_var)) }
        ensures unrolled { OnOk result (self.new ≡ with_frame self.old next_var) }
        ensures encodes { OnOk result (KeepsEncoding self.old next_var) }
        ensures literals { OnOk result (KeepsLiterals self.old next_var) }
        ensures names { OnOk result (NamesVariables self.old next_var) }
        ensures short { IfOk result (λ r. IsShort self.old.system r.added) }
        ensures fresh { IfOk result (λ r. r.fresh ≤ most_of self.old.system) }
        ensures err { OnErr result (self.new ≡ self.old) }
    {
        let _counts = self.circuit.counts();
        let extent = self.builder.extent();
        match extend(
            &mut self.builder,
            &self.circuit,
            &self.latches,
            self.made,
            next_var,
        ) {
            Ok(extended) => {
                let Extended { frame, nexts } = extended;
                self.top = top_after(self.top, next_var, frame.fresh);
                self.latches = nexts;
                self.made += 1;
                Ok(frame)
            }
            Err(e) => {
                self.builder.cut(extent);
                Err(e)
            }
        }
    }
}

/// The greatest variable that frames took, where one took some from n on.
fn top_after(top: u32, n: u32, fresh: u32) -> u32
    requires { n + fresh ≤ max_var + 1 }
    ensures { result ≡ top_after top n fresh }
{
    if fresh == 0 { top } else { n + fresh - 1 }
}
