// The pages that people ask for.
ghost use Rattle.std.specs.Prelude.{◌≡◌, IsTrue, ◌↔◌, map};
ghost use Rattle.std.specs.String.{string_bytes};
ghost use Rattle.gi_command.specs.Pages.{PrintsPage, is_option, page_asked, page_named, page_text};

use crate::help::{HELP, VERSION};
use gi_outside::{Link, Sent, write_all};

/// A page about the program.
#[derive(Clone, Copy, Debug, PartialEq, Eq)]
pub enum Page {
    /// What its commands read and print.
    Help,
    /// Its version, and what it was proved with.
    Version,
}

/// The page that words ask for, if they ask for one: the words' only option is `--help` or `-h`, or
/// `--version` or `-V`. An option is a word that begins with `-`.
pub fn page_asked(words: &[String]) -> Option<Page>
    ensures { result ≡ page_asked (map (λ word. string_bytes word) words.now) }
{
    let mut options: usize = 0;
    let mut page = None;
    for word in words {
        if is_option(word) {
            options += 1;
            page = page_named(word.as_bytes());
        }
    }
    if options == 1 {
        return page;
    }
    None
}

// Whether a word begins with `-`.
fn is_option(word: &String) -> bool
    ensures { result ≡ is_option (string_bytes word.now) }
{
    match word.as_bytes() {
        [first, ..] => *first == b'-',
        [] => false,
    }
}

// The page of that name.
#[tactic(auto, unfolding(crate::specs::Pages::page_named))]
fn page_named(word: &[u8]) -> Option<Page>
    ensures { result ≡ page_named word.now }
{
    if word == b"--help".as_slice() {
        return Some(Page::Help);
    }
    if word == b"-h".as_slice() {
        return Some(Page::Help);
    }
    if word == b"--version".as_slice() {
        return Some(Page::Version);
    }
    if word == b"-V".as_slice() {
        return Some(Page::Version);
    }
    None
}

/// Prints a page, and gives the exit status: 0, or 5 where a write failed, and then the page lacks
/// its last byte at least.
pub fn print_page<L: Link>(page: Page, user: &mut L) -> u8
    ensures { PrintsPage page (L.state user.old) (L.state user.new) result }
{
    match write_all(text_of(page).as_bytes(), user) {
        Sent::Done => 0,
        Sent::Failed => 5,
    }
}

// The text of a page.
#[tactic(auto, unfolding(crate::specs::Pages::page_text))]
fn text_of(page: Page) -> &'static str
    ensures { result.now ≡ page_text page }
{
    match page {
        Page::Help => HELP,
        Page::Version => VERSION,
    }
}
