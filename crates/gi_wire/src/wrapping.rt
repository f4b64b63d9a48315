// Numbers as words, in lines that are not too long.
ghost use Rattle.std.specs.Prelude.{◌≡◌, ◌++◌, ◌+◌, ◌≤◌, ℕ, List, map, pos};
ghost use Rattle.std.specs.Fmt.{signed_decimal};
ghost use Rattle.gi_lit.specs.Literals.{number_of};
ghost use Rattle.gi_outside.specs.Outbox.{Stands};
ghost use Rattle.gi_outside.specs.World.{World};
ghost use Rattle.gi_wire.specs.CallText.{column_after, column_behind, guard_numbers, placed, wrapped};
ghost use Rattle.gi_wire.specs.Limits.{most_line};

use gi_lit::{Lit, Var};
use gi_outside::{Link, Outbox};
use gi_text::{Digits, MAX_LINE};

// Puts a number behind so many bytes of a line, and tells how many its line then has. Where it and
// ` +` have no room, the line goes on in the next.
fn put_word<L: Link>(outbox: &mut Outbox, column: u32, number: i64, link: &mut L) -> u32
    requires { column ≤ most_line }
    ensures text { (start : World) (before : List ℕ)
        → Stands start (L.state link.old) outbox.old before
        → Stands start (L.state link.new) outbox.new
        (before ++ placed column (signed_decimal number)) }
    ensures column { result ≡ column_behind column (signed_decimal number) }
    ensures short { result ≤ most_line }
{
    let digits = Digits::of(i128::from(number));
    let word = digits.as_slice();
    let len = word.len() as u32;
    if column + len + 3 <= MAX_LINE {
        outbox.put(b" ", link);
        outbox.put(word, link);
        return column + 1 + len;
    }
    outbox.put(b" +\n", link);
    outbox.put(word, link);
    len
}

/// Puts literals behind so many bytes of a line.
pub(crate) fn put_literal_words<L: Link>(
    outbox: &mut Outbox,
    column: u32,
    literals: &[Lit],
    link: &mut L,
)
    requires { column ≤ most_line }
    ensures { (start : World) (before : List ℕ) → Stands start (L.state link.old) outbox.old before
        → Stands start (L.state link.new) outbox.new
        (before ++ wrapped column (map number_of literals.now)) }
{
    let mut filled = column;
    for literal in literals {
        filled = put_word(outbox, filled, i64::from(literal.to_dimacs()), link);
    }
}

/// Puts guards behind so many bytes of a line, with a 0 at the end where they are several, and
/// tells how many bytes the last line then has.
pub(crate) fn put_guard_words<L: Link>(
    outbox: &mut Outbox,
    column: u32,
    guards: &[Var],
    link: &mut L,
) -> u32
    requires { column ≤ most_line }
    ensures text { (start : World) (before : List ℕ)
        → Stands start (L.state link.old) outbox.old before
        → Stands start (L.state link.new) outbox.new
        (before ++ wrapped column (guard_numbers guards.now)) }
    ensures column { result ≡ column_after column (guard_numbers guards.now) }
    ensures short { result ≤ most_line }
{
    let column = put_each_guard(outbox, column, guards, link);
    if guards.len() == 1 {
        return column;
    }
    put_word(outbox, column, 0, link)
}

fn put_each_guard<L: Link>(outbox: &mut Outbox, column: u32, guards: &[Var], link: &mut L) -> u32
    requires { column ≤ most_line }
    ensures text { (start : World) (before : List ℕ)
        → Stands start (L.state link.old) outbox.old before
        → Stands start (L.state link.new) outbox.new
        (before ++ wrapped column (map pos guards.now)) }
    ensures column { result ≡ column_after column (map pos guards.now) }
    ensures short { result ≤ most_line }
{
    let mut filled = column;
    for guard in guards {
        filled = put_word(outbox, filled, i64::from(guard.index()), link);
    }
    filled
}
