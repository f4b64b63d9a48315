//! The program: an incremental SAT solver that serves a session over standard input and output.
#![tactic(auto)]

mod answering;
mod concluding;
mod resting;

use answering::answer;
use concluding::conclude;
use gi_command::take_words;
use gi_outside::StdLink;
use resting::RestingGate;
use std::process::ExitCode;

fn main(rt: HostRuntime) -> ExitCode {
    let words = take_words(&rt, rt.alloc());
    let gate = RestingGate { rt: &rt };
    let ending = answer(&rt, rt.alloc(), &words, &mut StdLink::new(&rt), &gate);
    conclude(&rt, &words, ending)
}
