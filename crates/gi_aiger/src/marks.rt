// Which variables are used and which are defined.
ghost use Rattle.std.specs.Prelude.{◌≡◌, ◌+◌, ◌<◌, [], ℕ, ◌^◌, true, if◌then◌else◌, OnOk, OnErr};
ghost use Rattle.gi_aiger.specs.declared.mark.Mark.TheVariants as marks;
ghost use Rattle.gi_aiger.specs.Marks.{is_fresh, is_used, mark_at, missing, used, with_mark};

use crate::mark::Mark;
use crate::table::Table;
use std::alloc::{AllocError, Global};
use std::marker::Model;

/// The marks of the variables. Contracts see their list; a variable past the last is fresh.
#[derive(Drop)]
pub struct Marks {
    table: Table<Mark>,
    /// One more than the greatest variable that was marked.
    len: usize,
    /// How many variables are used and not defined.
    count: usize,
}

impl Model for Marks {
    ghost use Rattle.std.specs.Prelude.{List, map};
    ghost use Rattle.std.specs.List.{range_with_len};
    ghost use Rattle.gi_aiger.specs.declared.mark.Mark.{Mark};
    ghost use Rattle.gi_aiger.specs.Marks.{AreMarked};
    ghost use Rattle.gi_aiger.specs.Tables.{value_of};

    ghost Value = { List Mark };

    ghost view = { λ m. map (value_of m.table) (range_with_len 0 m.len) };

    ghost invariant = { λ m. AreMarked (value_of m.table) m.len m.count };
}

impl Marks {
    /// No variable is used or defined. Takes no memory.
    pub fn new(alloc: Global) -> Marks
        ensures { result ≡ [] }
    {
        Marks {
            table: Table::new(alloc, Mark::Fresh),
            len: 0,
            count: 0,
        }
    }

    /// The mark of a variable.
    pub fn mark_at(&self, v: u32) -> Mark
        ensures { result ≡ mark_at self.now v }
    {
        self.table.get(v)
    }

    /// How many variables are used and not defined.
    pub fn missing(&self) -> usize
        ensures { result ≡ missing self.now }
    {
        self.count
    }

    // Gives a variable another mark.
    fn put(&mut self, v: u32, mark: Mark) -> Result<(), AllocError>
        ensures ok { OnOk result (self.new ≡ with_mark v mark self.old) }
        ensures err { OnErr result (self.new ≡ self.old) }
    {
        let old = self.table.get(v);
        self.table.put(v, mark)?;
        self.count = recounted(self.count, old, mark);
        self.len = self.len.max(v as usize + 1);
        Ok(())
    }

    /// A line defines a variable. For want of memory nothing changes.
    pub fn define(&mut self, v: u32) -> Result<(), AllocError>
        ensures ok { OnOk result (self.new ≡ with_mark v marks.Defined self.old) }
        ensures err { OnErr result (self.new ≡ self.old) }
    {
        self.put(v, Mark::Defined)
    }

    /// A line uses a variable. For want of memory nothing changes.
    pub fn use_one(&mut self, v: u32) -> Result<(), AllocError>
        ensures ok { OnOk result (self.new ≡ used v self.old) }
        ensures err { OnErr result (self.new ≡ self.old) }
    {
        if !is_fresh(self.mark_at(v)) {
            return Ok(());
        }
        self.put(v, Mark::Used)
    }
}

// How many are used and not defined, where one mark takes another's place.
fn recounted(count: usize, old: Mark, new: Mark) -> usize
    requires some { is_used old ≡ true → 0 < count }
    requires room { count < 2 ^ 63 }
    ensures { result + (if is_used old then 1 else 0) ≡ count + (if is_used new then 1 else 0) }
{
    let rest = if is_used(old) { count - 1 } else { count };
    if is_used(new) { rest + 1 } else { rest }
}

fn is_used(mark: Mark) -> bool
    ensures { result ≡ is_used mark }
{
    match mark {
        Mark::Fresh => false,
        Mark::Used => true,
        Mark::Defined => false,
    }
}

fn is_fresh(mark: Mark) -> bool
    ensures { result ≡ is_fresh mark }
{
    match mark {
        Mark::Fresh => true,
        Mark::Used => false,
        Mark::Defined => false,
    }
}
