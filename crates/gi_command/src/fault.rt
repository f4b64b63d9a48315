// What a status and a refusal mean, for people.
ghost use Rattle.std.specs.Prelude.{◌≡◌};
ghost use Rattle.gi_command.specs.Faults.{fault_text};

use gi_dimacs::CnfCode;

/// What a status means: a text for 1 to 9, and for every other status, as those of an answer, none.
#[tactic(auto, unfolding(crate::specs::Faults::fault_text))]
pub fn fault_text(status: u8) -> &'static str
    ensures { result.now ≡ fault_text status }
{
    match status {
        1 => "input refused",
        2 => "unknown command",
        3 => "out of memory",
        4 => "read failed",
        5 => "write failed",
        6 => "door failed",
        7 => "peer broke the protocol",
        8 => "too much",
        9 => "room ended",
        _ => "",
    }
}

/// What the code of a refused input means at the line that is named.
pub fn refusal_text(code: CnfCode) -> &'static str {
    match code {
        CnfCode::Header => {
            "the header is wrong or missing: the first line that is neither blank nor a comment has to be `p cnf VARIABLES CLAUSES` for cnf, or `p inccnf` for icnf"
        }
        CnfCode::Word => {
            "a word is no number: it begins with neither a digit nor `-`, or stands behind the 0 of an ask"
        }
        CnfCode::Number => "a number is misspelt, as `1x`, `-` or `-0` are",
        CnfCode::Limit => {
            "a limit is passed: at most 16777216 variables, 4194304 clauses, 67108864 literals, and 1048576 in an ask"
        }
        CnfCode::Unterminated => { "a clause or an ask has no 0 at its end" }
    }
}
