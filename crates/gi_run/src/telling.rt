// What people are told on standard error.
ghost use Rattle.std.specs.Prelude.{◌≡◌, ◌↔◌, IsSome, option_map};
ghost use Rattle.gi_command.specs.Faults.{fault_text};

use crate::starting::Ending;
use gi_command::{Words, fault_text, refusal_text, usage_of};

/// What people are told of how the program ended, a line each.
#[derive(Clone, Copy, Debug, PartialEq, Eq)]
pub struct Telling {
    /// What the status means; nothing where no fault is to be told.
    pub fault: &'static str,
    /// The line of an input that was refused, and what the refusal means there.
    pub meaning: Option<(u64, &'static str)>,
    /// What to write in place of words that are no command.
    pub usage: Option<&'static str>,
}

/// What is told of an ending: the text of its status, the meaning of a refusal where there was one,
/// and a usage exactly where the status is 2.
pub fn telling_of(words: &Words, ending: Ending) -> Telling
    ensures fault { result.fault.now ≡ fault_text ending.status }
    ensures meaning { option_map (λ told. told.0) result.meaning
        ≡ option_map (λ fault. fault.line) ending.refusal }
    ensures usage { IsSome result.usage ↔ (ending.status ≡ 2) }
{
    Telling {
        fault: fault_text(ending.status),
        meaning: match ending.refusal {
            Some(fault) => Some((fault.line, refusal_text(fault.code))),
            None => None,
        },
        usage: if ending.status == 2 {
            Some(usage_for(words))
        } else {
            None
        },
    }
}

// The usage that is told where words are no command.
fn usage_for(words: &Words) -> &'static str {
    match words {
        Words::Taken(words) => usage_of(words.as_slice()),
        _ => usage_of(&[]),
    }
}
