// A session that polls its solve while the worker works on it.
ghost use Rattle.std.specs.Prelude.{◌≡◌};

use crate::poller::Poller;
use crate::words::parted;
use gi_drill::write_script;
use gi_room::{OpenGate, Room};
use gi_run::run;
use gi_text::Bytes;
use std::alloc::{AllocError, Global};
use std::io;
use std::sync::Wait;
use std::thread::Threads;

// The end of the lines of the drill's script that ask for a solve.
const SOLVE: &[u8; 6] = b"solve\n";

/// Runs the script of a drill of no rounds up to its first solve, and then polls until the solve
/// has ended. Prints how, and that at most 10,000,000 polls were asked.
pub fn print_polled<R: Threads + Wait + Sync>(rt: &HostRuntime, threads: &R) -> io::Result<()> {
    println!(rt; "# polls beside a worker see the solve end")?;
    let mut poller = Poller::new(begun(rt.alloc())?);
    let words = parted(rt.alloc(), " run")?;
    let (room, pass) = Room::open(rt.alloc())?;
    let outcome = run(
        threads,
        rt.alloc(),
        words.as_slice(),
        &room,
        pass,
        &mut poller,
        &OpenGate,
    );
    println!(rt; "sat 1: {}", poller.saw_sat())?;
    println!(rt; "= {}", outcome.status)
}

// The lines of the script up to its first solve, and that.
fn begun(alloc: Global) -> Result<Bytes, AllocError> {
    let script = write_script(alloc, 0)?;
    let bytes = script.as_slice();
    let end = bytes
        .windows(SOLVE.len())
        .position(|line| line == SOLVE.as_slice());
    let front = end
        .unwrap_or(0)
        .saturating_add(SOLVE.len())
        .min(bytes.len());
    Bytes::of(alloc, &bytes[..front])
}
