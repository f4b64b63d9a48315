// The counts of accepted inputs.
ghost use Rattle.std.specs.Prelude.{◌≡◌, [], List, ℕ, count_by};
ghost use Rattle.gi_outside.specs.World.{World};
ghost use Rattle.gi_outside.specs.Outbox.{Stands};
ghost use Rattle.gi_outside.specs.Sent.{Sends};
ghost use Rattle.gi_files.specs.Texts.{cnf_counts, counted, icnf_counts, is_ask, is_clause};

use gi_dimacs::{Cnf, Icnf, Item};
use gi_outside::{Link, Outbox, Sent};

/// Writes the line with the variables and clauses of a CNF file.
pub fn write_cnf_counts<L: Link>(cnf: &Cnf, user: &mut L) -> Sent
    ensures { Sends result (L.state user.old) (L.state user.new) (cnf_counts cnf.now) }
{
    let mut outbox = Outbox::new();
    put_cnf_counts(&mut outbox, cnf, user);
    outbox.finish(user)
}

#[tactic(auto, unfolding(crate::specs::Texts::cnf_counts))]
fn put_cnf_counts<L: Link>(outbox: &mut Outbox, cnf: &Cnf, user: &mut L)
    ensures { (start : World) → Stands start (L.state user.old) outbox.old []
        → Stands start (L.state user.new) outbox.new (cnf_counts cnf.now) }
{
    put_counted(outbox, b"cnf ", cnf.vars, cnf.clauses.len(), user);
    outbox.put(b"\n", user);
}

/// Writes the line with the variables, clauses and asks of an iCNF file.
pub fn write_icnf_counts<L: Link>(icnf: &Icnf, user: &mut L) -> Sent
    ensures { Sends result (L.state user.old) (L.state user.new) (icnf_counts icnf.now) }
{
    let mut outbox = Outbox::new();
    put_icnf_counts(&mut outbox, icnf, user);
    outbox.finish(user)
}

#[tactic(auto, unfolding(crate::specs::Texts::icnf_counts))]
fn put_icnf_counts<L: Link>(outbox: &mut Outbox, icnf: &Icnf, user: &mut L)
    ensures { (start : World) → Stands start (L.state user.old) outbox.old []
        → Stands start (L.state user.new) outbox.new (icnf_counts icnf.now) }
{
    let clauses = clauses_among(icnf.items.as_slice());
    let asks = asks_among(icnf.items.as_slice());
    put_counted(outbox, b"icnf ", icnf.vars, clauses, user);
    outbox.put(b" ", user);
    outbox.put_number(asks as u64, user);
    outbox.put(b"\n", user);
}

// Puts a word, the variables and the clauses.
fn put_counted<L: Link>(outbox: &mut Outbox, word: &[u8], vars: u32, clauses: usize, user: &mut L)
    ensures { (start : World) → Stands start (L.state user.old) outbox.old []
        → Stands start (L.state user.new) outbox.new (counted word.now vars clauses) }
{
    outbox.put(word, user);
    outbox.put_number(u64::from(vars), user);
    outbox.put(b" ", user);
    outbox.put_number(clauses as u64, user);
}

fn clauses_among(items: &[Item]) -> usize
    ensures { result ≡ count_by is_clause items.now }
{
    items
        .iter()
        .filter(|item| matches!(item, Item::Clause(_)))
        .count()
}

fn asks_among(items: &[Item]) -> usize
    ensures { result ≡ count_by is_ask items.now }
{
    items
        .iter()
        .filter(|item| matches!(item, Item::Ask(_)))
        .count()
}
