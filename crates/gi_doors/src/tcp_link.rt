// A link over a TCP connection. No clause says what it gives or takes.
ghost use Rattle.std.specs.Prelude.{◌≡◌, None, false};

use gi_outside::{Got, Link, Put};
use std::io::{Read, Write};
use std::net::OpenStream;

/// A link over a connection. It tells no bytes. A write that takes nothing is a fault. The counts
/// of faults stay at the last value of their type once they are there. The connection is closed
/// when the link is dropped.
#[derive(Drop)]
pub struct TcpLink<S> {
    stream: S,
    failed_reads: u64,
    failed_writes: u64,
    ended: bool,
}

impl<S: OpenStream> TcpLink<S> {
    ghost use Rattle.gi_doors.specs.TcpLinkState.{link_state};

    // A link over this connection, with no fault counted. What is written goes out at once, where
    // the system can do so.
    pub(crate) fn new(stream: S) -> TcpLink<S>
        ensures { link_state result
            ≡ record {
              tape = None;
              rest = None;
              failed_reads = 0;
              failed_writes = 0;
              ended = false;
            } }
    {
        let _at_once = stream.set_nodelay(true);
        TcpLink {
            stream,
            failed_reads: 0,
            failed_writes: 0,
            ended: false,
        }
    }
}

impl<S: Read + Write> Link for TcpLink<S> {
    ghost use Rattle.gi_doors.specs.TcpLinkState.{link_state};

    ghost state = { link_state };

    ghost ended_is_empty = { λ _ _. tt };

    fn read(&mut self, into: &mut [u8]) -> Got {
        self.ended = false;
        match Got::of(self.stream.read(into)) {
            Got::Bytes(n) => Got::Bytes(n),
            Got::End => {
                self.ended = true;
                Got::End
            }
            Got::Failed => {
                self.failed_reads = self.failed_reads.saturating_add(1);
                Got::Failed
            }
        }
    }

    fn write(&mut self, piece: &[u8]) -> Put {
        match Put::of(self.stream.write(piece)) {
            Put::Took(n) => Put::Took(n),
            Put::Failed => {
                self.failed_writes = self.failed_writes.saturating_add(1);
                Put::Failed
            }
        }
    }
}
