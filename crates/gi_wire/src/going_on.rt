// Lines that go on.
ghost use Rattle.std.specs.Prelude.{◌≡◌, ◌≤◌, ◌<◌, ◌-◌, ℕ, drop, false, length, slice_index, take, true, MatchOption};
ghost use Rattle.gi_text.specs.Words.{is_white, words_of};
ghost use Rattle.gi_wire.specs.CallRead.{EndsAtPlus};
ghost use Rattle.gi_wire.specs.Grammar.{ends_plus, has_list, names_list};
ghost use Rattle.gi_wire.specs.Limits.{most_joined};

use gi_text::Words;

/// Whether a line may go on in the next one: its first word is `add`, `under` or `assume`. Takes no
/// memory.
#[tactic(auto, unfolding(crate::specs::Grammar::has_list))]
pub fn may_go_on(line: &[u8]) -> bool
    requires { length line.now ≤ most_joined }
    ensures { result ≡ has_list (words_of line.now) }
{
    match Words::new(line).next() {
        None => false,
        Some(name) => is_list_name(name),
    }
}

// Whether a call of this name has a list.
fn is_list_name(name: &[u8]) -> bool
    ensures { result ≡ names_list name.now }
{
    if name == b"add".as_slice() {
        return true;
    }
    if name == b"assume".as_slice() {
        return true;
    }
    name == b"under".as_slice()
}

/// The place of a line's last word, where that is `+`. None exactly where it isn't, or the line has
/// no word. Takes no memory.
pub fn plus_at(line: &[u8]) -> Option<u32>
    requires { length line.now ≤ most_joined }
    ensures { MatchOption result (ends_plus (words_of line.now) ≡ false)
        (λ place. EndsAtPlus line.now place) }
{
    let end = end_of_words(line);
    let start = start_of_word(line, end);
    if part(line, start, end) == b"+".as_slice() {
        return Some(start as u32);
    }
    None
}

// Where the last word ends, or 0.
fn end_of_words(line: &[u8]) -> usize
    ensures within { result ≤ length line.now }
    ensures behind { (k : ℕ) → result ≤ k → k < length line.now
        → is_white (slice_index line.now k) ≡ true }
    ensures last { 0 < result → is_white (slice_index line.now (result - 1)) ≡ false }
{
    let mut end = line.len();
    'white: while end > 0 {
        if !is_white_byte(line[end - 1]) {
            return end;
        }
        end -= 1;
    }
    end
}

// Where the word that ends there begins.
fn start_of_word(line: &[u8], end: usize) -> usize
    requires { end ≤ length line.now }
    ensures within { result ≤ end }
    ensures run { (k : ℕ) → result ≤ k → k < end → is_white (slice_index line.now k) ≡ false }
    ensures first { 0 < result → is_white (slice_index line.now (result - 1)) ≡ true }
{
    let mut start = end;
    'word: while start > 0 {
        if is_white_byte(line[start - 1]) {
            return start;
        }
        start -= 1;
    }
    start
}

fn is_white_byte(b: u8) -> bool
    ensures { result ≡ is_white b }
{
    matches!(b, b' ' | b'\t' | b'\r')
}

// What stands from one place up to another.
fn part(line: &[u8], start: usize, end: usize) -> &[u8]
    requires order { start ≤ end }
    requires within { end ≤ length line.now }
    ensures { result.now ≡ take (end - start) (drop start line.now) }
{
    &line[start..end]
}
