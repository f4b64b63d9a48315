ghost use Rattle.std.specs.Prelude.{◌≡◌, ℕ, ◌+◌, ◌<◌, ◌≤◌, [], true, false, length, OnOk, slice_index_or, slice_set, vec_capacity};
ghost use Rattle.gi_cdcl.specs.Touched.{IsTouched, IsBlank, AreMarked};

use std::alloc::{AllocError, Global};
use std::marker::Model;

/// Marks on the places of a trail, used by one conflict after the other. Contracts see a flag for
/// each place.
#[derive(Drop)]
pub(crate) struct Seen {
    flags: Vec<bool>,
    touched: Vec<u32>,
}

impl Model for Seen {
    ghost use Rattle.std.specs.Prelude.{List, Bool, vec_capacity};
    ghost use Rattle.gi_cdcl.specs.Touched.{IsTouched};

    ghost Value = { List Bool };

    ghost view = { λ s. s.flags.items };

    ghost invariant = { λ s. IsTouched s.flags.items s.touched.items (vec_capacity s.touched) };
}

impl Seen {
    /// Marks on no place.
    pub(crate) fn new(alloc: Global) -> Seen
        ensures { result ≡ [] }
    {
        Seen {
            flags: Vec::new(alloc),
            touched: Vec::new(alloc),
        }
    }

    /// Takes all marks away, and makes room for n places. Takes time in the number of marks, and
    /// memory only for more places than ever before.
    pub(crate) fn start_over(&mut self, n: usize) -> Result<(), AllocError>
        requires { n ≤ 4294967295 }
        ensures blank { IsBlank self.new }
        ensures room { OnOk result (n ≤ length self.new) }
    {
        unmark(&mut self.flags, self.touched.as_slice());
        self.touched.clear();
        let more = n.saturating_sub(self.flags.len());
        self.touched.reserve(n)?;
        self.flags.reserve(more)?;
        add_flags(&mut self.flags, more);
        Ok(())
    }

    /// Whether a place is marked.
    pub(crate) fn has(&self, place: usize) -> bool
        requires { place < length self.now }
        ensures { result ≡ slice_index_or self.now place false }
    {
        self.flags[place]
    }

    /// Marks a place that isn't marked. Takes no memory.
    pub(crate) fn set(&mut self, place: usize)
        requires within { place < length self.old }
        requires free { slice_index_or self.old place false ≡ false }
        ensures { self.new ≡ slice_set self.old place true }
    {
        self.flags[place] = true;
        self.touched.push_reserved(place as u32);
    }

    /// The marked places, in the order in which they were marked.
    pub(crate) fn touched(&self) -> &[u32]
        ensures { AreMarked self.now result.now }
    {
        let _ = &self.flags;
        self.touched.as_slice()
    }
}

/// Takes the marks of these places away.
fn unmark(flags: &mut Vec<bool>, touched: &[u32])
    requires { AreMarked flags.old.items touched.now }
    ensures blank { IsBlank flags.new.items }
    ensures len { length flags.new.items ≡ length flags.old.items }
{
    for place in touched {
        flags[*place as usize] = false;
    }
}

/// More places without marks.
fn add_flags(flags: &mut Vec<bool>, more: usize)
    requires blank { IsBlank flags.old.items }
    requires room { length flags.old.items + more ≤ vec_capacity flags.old }
    ensures blank { IsBlank flags.new.items }
    ensures len { length flags.new.items ≡ length flags.old.items + more }
{
    for _i in 0..more {
        flags.push_reserved(false);
    }
}
