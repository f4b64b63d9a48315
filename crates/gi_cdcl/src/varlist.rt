ghost use Rattle.std.specs.Prelude.{◌≡◌, ℕ, ◌<◌, ◌≤◌, [], length, max, Contains, IfSome, OnOk, OnErr};
ghost use Rattle.gi_chains.specs.Lists.{Lists, items_at, IsApart};
ghost use Rattle.gi_cdcl.specs.Queue.{IsLinkedFrom, IsQueue};

use crate::stamp::{LAST_TIME, Stamp};
use gi_chains::Chains;
use std::alloc::{AllocError, Global};
use std::marker::Model;

/// All variables in one list, each once, with the time of its last move and its last value beside
/// each. A variable goes by its place, from 0; contracts see how many there are.
#[derive(Drop)]
pub(crate) struct VarList {
    chains: Chains,
    count: u32,
}

impl Model for VarList {
    ghost use Rattle.std.specs.Prelude.{ℕ};
    ghost use Rattle.gi_cdcl.specs.Queue.{IsQueue};

    ghost Value = { ℕ };

    ghost view = { λ q. q.count };

    ghost invariant = { λ q. IsQueue q.chains q.count };
}

impl VarList {
    /// The list of no variable.
    pub(crate) fn new(alloc: Global) -> VarList
        ensures { result ≡ 0 }
    {
        VarList {
            chains: Chains::new(alloc),
            count: 0,
        }
    }

    /// How many variables there are.
    pub(crate) fn len(&self) -> u32
        ensures { result ≡ self.now }
    {
        self.count
    }

    /// Makes the count at least n: the new variables come to stand in front, the least first.
    /// Unchanged after an error.
    pub(crate) fn grow(&mut self, n: u32) -> Result<(), AllocError>
        ensures ok { OnOk result (self.new ≡ max self.old n) }
        ensures err { OnErr result (self.new ≡ self.old) }
    {
        if n <= self.count {
            return Ok(());
        }
        self.chains.grow(1, u64::from(n - 1))?;
        link(&mut self.chains, self.count, n);
        self.count = n;
        Ok(())
    }

    /// The first variable; None exactly where there is none.
    pub(crate) fn first(&self) -> Option<u32>
        ensures { IfSome result (λ v. v < self.now) }
    {
        if self.count == 0 {
            return None;
        }
        match self.chains.first(0) {
            Some(node) => Some(node as u32),
            None => None,
        }
    }

    /// The variable that follows; None exactly where it is the last.
    pub(crate) fn next(&self, v: u32) -> Option<u32>
        requires { v < self.now }
        ensures { IfSome result (λ w. w < self.now) }
    {
        match self.chains.next(u64::from(v)) {
            Some(node) => Some(node as u32),
            None => None,
        }
    }

    /// When a variable moved last, 0 at first.
    pub(crate) fn time(&self, v: u32) -> u32
        requires { v < self.now }
        ensures { result ≤ 2147483647 }
    {
        Stamp::in_word(self.chains.word(u64::from(v))).time()
    }

    /// The value that a variable had last, false at first.
    pub(crate) fn phase(&self, v: u32) -> bool
        requires { v < self.now }
    {
        Stamp::in_word(self.chains.word(u64::from(v))).phase()
    }

    /// A variable moved at that time.
    pub(crate) fn set_time(&mut self, v: u32, time: u32)
        requires { v < self.old }
        ensures { self.new ≡ self.old }
    {
        let stamp = Stamp::of(time.min(LAST_TIME), self.phase(v));
        self.chains.set_word(u64::from(v), stamp.word());
    }

    /// A variable had that value last.
    pub(crate) fn set_phase(&mut self, v: u32, phase: bool)
        requires { v < self.old }
        ensures { self.new ≡ self.old }
    {
        let stamp = Stamp::of(self.time(v), phase);
        self.chains.set_word(u64::from(v), stamp.word());
    }

    /// Makes a variable the first.
    pub(crate) fn move_to_front(&mut self, v: u32)
        requires { v < self.old }
        ensures { self.new ≡ self.old }
    {
        self.chains.move_to_front(u64::from(v));
    }
}

/// Puts the nodes from one number to another, that one left out, to the front of list 0, the least
/// first.
fn link(chains: &mut Chains, from: u32, end: u32)
    requires from { from ≤ end }
    requires linked { IsLinkedFrom chains.old from end end }
    ensures { IsQueue chains.new end }
{
    let mut node = end;
    while node > from {
        node -= 1;
        chains.push_front(0, u64::from(node));
    }
}
