//! A machine that is played by lines of the protocol, for the tests of it.
#![tactic(auto)]

mod asking;
mod reading;
mod telling;

pub use asking::ask;
use gi_core::Core;
use std::alloc::Global;
pub use telling::is_told;

/// Whether a call's line is answered by another. Beside the calls of the protocol there are `shut`
/// and the text of a file, with `/` for LF.
pub fn goes(alloc: Global, core: &mut Core, asked: &str, answer: &str) -> bool {
    let Some(call) = reading::call(alloc, asked) else {
        return false;
    };
    match ask(core, &call) {
        Some(reply) => is_told(alloc, &reply, answer),
        None => false,
    }
}
