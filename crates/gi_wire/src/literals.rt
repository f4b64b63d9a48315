// Lists of literals as text.
ghost use Rattle.std.specs.Prelude.{◌++◌, ℕ, List};
ghost use Rattle.gi_outside.specs.Outbox.{Stands};
ghost use Rattle.gi_outside.specs.World.{World};
ghost use Rattle.gi_wire.specs.Literals.{list_text};

use gi_lit::Lit;
use gi_outside::{Link, Outbox};
use gi_text::Digits;

/// Puts each literal with a space behind it, and then a 0.
pub(crate) fn put_literals<L: Link>(outbox: &mut Outbox, literals: &[Lit], link: &mut L)
    ensures { (start : World) (before : List ℕ) → Stands start (L.state link.old) outbox.old before
        → Stands start (L.state link.new) outbox.new (before ++ list_text literals.now) }
{
    for literal in literals {
        outbox.put(Digits::of(i128::from(literal.to_dimacs())).as_slice(), link);
        outbox.put(b" ", link);
    }
    outbox.put(b"0", link);
}
