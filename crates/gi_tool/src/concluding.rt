// From the status to the exit.
ghost use Rattle.std.specs.Prelude.{◌≡◌};
ghost use Rattle.std.specs.Process.{exit_status};

use gi_command::Words;
use gi_run::{Ending, Telling, telling_of};
use std::process::ExitCode;

/// Tells people on standard error what is told of the ending. The exit code is the status.
pub fn conclude(rt: &HostRuntime, words: &Words, ending: Ending) -> ExitCode
    ensures { exit_status result ≡ ending.status }
{
    tell(rt, telling_of(words, ending));
    ExitCode::from(ending.status)
}

// Writes the lines, and a hint behind a usage.
fn tell(rt: &HostRuntime, telling: Telling) {
    if !telling.fault.is_empty() {
        let _ = eprintln!(rt; "{}", telling.fault);
    }
    if let Some((line, meaning)) = telling.meaning {
        let _ = eprintln!(rt; "line {line}: {meaning}");
    }
    if let Some(usage) = telling.usage {
        let _ = eprintln!(rt; "{usage}");
        let _ = eprintln!(rt; "gi_tool --help tells more");
    }
}
