//! The pages alone: what the program prints for `--help` and `--version`.
#![tactic(auto)]

mod answering;

use answering::answer;
use gi_command::take_words;
use gi_outside::StdLink;
use std::process::ExitCode;

fn main(rt: HostRuntime) -> ExitCode {
    let words = take_words(&rt, rt.alloc());
    ExitCode::from(answer(&words, &mut StdLink::new(&rt)))
}
