// From the words to the page.
ghost use Rattle.std.specs.Prelude.{map};
ghost use Rattle.std.specs.String.{string_bytes};
ghost use Rattle.gi_command.specs.Pages.{page_asked};
ghost use Rattle.gi_help.specs.Answering.{AnswersWords, PrintsAsked};

use gi_command::{Words, page_asked, print_page};
use gi_outside::Link;

/// Prints the page that the words ask for, and gives the exit status: that of the page, or 2 where
/// they ask for none, and then nothing is printed.
pub fn answer<L: Link>(words: &Words, user: &mut L) -> u8
    ensures { AnswersWords words.now (L.state user.old) (L.state user.new) result }
{
    match words {
        Words::Taken(words) => answer_text(words.as_slice(), user),
        Words::NotText | Words::NoMemory => 2,
    }
}

// The same of words that were taken.
fn answer_text<L: Link>(words: &[String], user: &mut L) -> u8
    ensures { PrintsAsked (page_asked (map (λ word. string_bytes word) words.now))
        (L.state user.old) (L.state user.new) result }
{
    match page_asked(words) {
        Some(page) => print_page(page, user),
        None => 2,
    }
}
