// What the drill prints.
ghost use Rattle.std.specs.Prelude.{◌++◌, [], List, ℕ};
ghost use Rattle.gi_outside.specs.World.{World};
ghost use Rattle.gi_outside.specs.Outbox.{Stands};
ghost use Rattle.gi_outside.specs.Sent.{Sends};
ghost use Rattle.gi_drill.specs.Printing.{counted, tally_text};

use crate::tally::Tally;
use gi_outside::{Link, Outbox, Sent};

/// Writes five lines: `drill` and the number of rounds, and then `vars`, `clauses`, `sat` and
/// `unsat` with what was counted. `Failed` comes only where a write of `user` failed; then a front
/// of the text was written.
pub fn print_tally<L: Link>(rounds: u32, tally: &Tally, user: &mut L) -> Sent
    ensures { Sends result (L.state user.old) (L.state user.new) (tally_text rounds tally.now) }
{
    let mut outbox = Outbox::new();
    put_tally(&mut outbox, rounds, tally, user);
    outbox.finish(user)
}

// Puts the five lines.
fn put_tally<L: Link>(outbox: &mut Outbox, rounds: u32, tally: &Tally, user: &mut L)
    ensures { (start : World) → Stands start (L.state user.old) outbox.old []
        → Stands start (L.state user.new) outbox.new (tally_text rounds tally.now) }
{
    put_counted(outbox, b"drill ", u64::from(rounds), user);
    put_counted(outbox, b"vars ", tally.vars, user);
    put_counted(outbox, b"clauses ", tally.clauses, user);
    put_counted(outbox, b"sat ", tally.sat, user);
    put_counted(outbox, b"unsat ", tally.unsat, user);
}

// Puts a line of a label and a number.
fn put_counted<L: Link>(outbox: &mut Outbox, label: &[u8], number: u64, user: &mut L)
    ensures { (start : World) (text : List ℕ) → Stands start (L.state user.old) outbox.old text
        → Stands start (L.state user.new) outbox.new (text ++ counted label.now number) }
{
    outbox.put(label, user);
    outbox.put_number(number, user);
    outbox.put(b"\n", user);
}
