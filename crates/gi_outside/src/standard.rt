// Standard input and output. No clause says what they give or take.
ghost use Rattle.std.specs.Prelude.{◌≡◌, ◌≤◌, ◌<◌, None, true, false, length, IfSome, []};

use crate::{Got, Link, Put};
use std::io::{Read, Write};
use std::rt::{Stdin, Stdout};

/// A link that reads standard input and writes standard output. It tells no bytes. A write that
/// takes nothing is a fault. The counts of faults stay at the last value of their type once they
/// are there.
#[derive(Drop)]
pub struct StdLink {
    input: Stdin,
    output: Stdout,
    failed_reads: u64,
    failed_writes: u64,
    ended: bool,
}

impl StdLink {
    ghost use Rattle.gi_outside.specs.StandardState.{standard_state};

    /// The link, with no fault counted.
    pub fn new(rt: &HostRuntime) -> StdLink
        ensures { standard_state result
            ≡ record {
              tape = None;
              rest = None;
              failed_reads = 0;
              failed_writes = 0;
              ended = false;
            } }
    {
        StdLink {
            input: rt.stdin(),
            output: rt.stdout(),
            failed_reads: 0,
            failed_writes: 0,
            ended: false,
        }
    }
}

impl Link for StdLink {
    ghost use Rattle.gi_outside.specs.StandardState.{standard_state};

    ghost state = { standard_state };

    ghost ended_is_empty = { λ _ _. tt };

    fn read(&mut self, into: &mut [u8]) -> Got {
        self.ended = false;
        match Got::of(self.input.read(into)) {
            Got::Bytes(n) => Got::Bytes(n),
            Got::End => {
                self.ended = true;
                Got::End
            }
            Got::Failed => {
                self.failed_reads = self.failed_reads.saturating_add(1);
                Got::Failed
            }
        }
    }

    fn write(&mut self, piece: &[u8]) -> Put {
        match Put::of(self.output.write(piece)) {
            Put::Took(n) => Put::Took(n),
            Put::Failed => {
                self.failed_writes = self.failed_writes.saturating_add(1);
                Put::Failed
            }
        }
    }
}
