// The words of a line.
ghost use Rattle.std.specs.Prelude.{◌≡◌, ◌≢◌, ◌≤◌, ◌<◌, ◌+◌, ◌∷◌, [], ℕ, List, length, drop, slice_index, MatchOption};
ghost use Rattle.std.specs.Iterator.{YieldsFirstRef, item_count};
ghost use Rattle.gi_text.specs.Words.{is_white, words_of};

use crate::parts::skip;
use std::marker::Model;

/// The words of a line, from the front: the maximal runs of bytes other than space, tab and CR.
#[derive(Drop)]
pub struct Words<'a> {
    rest: &'a [u8],
}

impl<'a> Model for Words<'a> {
    ghost use Rattle.std.specs.Prelude.{List, ℕ};
    ghost use Rattle.gi_text.specs.Words.{words_of};

    ghost Value = { List (List ℕ) };

    ghost view = { λ w. words_of w.rest.now };
}

impl<'a> Words<'a> {
    /// All words of `line`, which has no LF of its own.
    #[tactic(auto, using(crate::proofs::WordRuns::words_len))]
    pub fn new(line: &'a [u8]) -> Words<'a>
        ensures words { result ≡ words_of line.now }
        ensures len { length result ≤ length line.now }
    {
        Words { rest: line }
    }
}

impl<'a> Iterator for Words<'a> {
    type Item = &'a [u8];

    ghost next_gives = { YieldsFirstRef (λ words. words) };

    ghost remaining = { item_count (λ words. words) };

    fn next(&mut self) -> Option<&'a [u8]> {
        match split_word(self.rest) {
            Some((word, rest)) => {
                self.rest = rest;
                Some(word)
            }
            None => None,
        }
    }
}

// The first word, and what stands behind it.
fn split_word(line: &[u8]) -> Option<(&[u8], &[u8])>
    ensures { MatchOption result (words_of line.now ≡ [])
        (λ p. words_of line.now ≡ p.0.now ∷ words_of p.1.now) }
{
    let line = skip(line, run_len(line, true));
    let n = run_len(line, false);
    if n == 0 {
        return None;
    }
    Some(line.split_at(n))
}

// How many bytes at the front are white, or are not.
fn run_len(bytes: &[u8], white: bool) -> usize
    ensures fits { result ≤ length bytes.now }
    ensures same { (k : ℕ) → k < result → is_white (slice_index bytes.now k) ≡ white }
    ensures ends { result < length bytes.now → is_white (slice_index bytes.now result) ≢ white }
{
    for (i, b) in bytes.iter().enumerate() {
        if is_white_byte(*b) != white {
            return i;
        }
    }
    bytes.len()
}

fn is_white_byte(b: u8) -> bool
    ensures { result ≡ is_white b }
{
    matches!(b, b' ' | b'\t' | b'\r')
}
