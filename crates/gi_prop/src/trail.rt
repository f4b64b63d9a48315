ghost use Rattle.std.specs.Prelude.{◌≡◌, ℕ, ◌+◌, ◌-◌, ◌*◌, ◌/◌, ◌≤◌, ◌<◌, [], ◌∷◌, ◌++◌, length, max, None, slice_index, slice_index_or, OnOk, OnErr, MatchOption, IsTrue, ◌↔◌, All, Contains};
ghost use Rattle.gi_lit.specs.Literals.{opposite};
ghost use Rattle.gi_store.specs.StoreView.{StoreView};
ghost use Rattle.gi_prop.specs.Attached.{Attached, Goes};
ghost use Rattle.gi_prop.specs.TrailView.{TrailView, no_lits, HasValue, StandsAt, IsUnassigned, IsLevelAt, with_lit, with_level, cancelled, IsTrail, IsLate, IsUnseen};

use crate::positions::{add_positions, add_values, unwind};
use crate::truth::Truth;
use crate::why::Why;
use gi_chains::Link;
use gi_lit::{Lit, Var};
use gi_store::Key;
use std::alloc::{AllocError, Global};
use std::marker::Model;

/// Literals that are true, in the order in which they became so, with the levels at which they did.
/// Contracts see the literals and their reasons by place, how long the trail was when each level
/// began, and how much of it propagation has looked at.
#[derive(Drop)]
pub struct Trail {
    lits: Vec<Lit>,
    reasons: Vec<Why>,
    positions: Vec<Link>,
    values: Vec<Truth>,
    level_starts: Vec<u32>,
    head: usize,
    qheads: Vec<u32>,
}

impl Model for Trail {
    ghost use Rattle.std.specs.Prelude.{length, vec_capacity};
    ghost use Rattle.gi_prop.specs.TrailView.{TrailView};
    ghost use Rattle.gi_prop.specs.Laid.{IsLaid};

    ghost Value = { TrailView };

    ghost view = { λ t. record {
      vars = length t.positions.items;
      lits = t.lits.items;
      reasons = t.reasons.items;
      level_starts = t.level_starts.items;
      head = t.head;
      qheads = t.qheads.items;
    } };

    ghost invariant = { λ t. IsLaid t.positions.items t.values.items t.lits.items t.reasons.items
        t.level_starts.items t.head t.qheads.items (vec_capacity t.lits) (vec_capacity t.reasons) };
}

impl Trail {
    /// An empty trail over no variable.
    pub fn new(alloc: Global) -> Trail
        ensures { result ≡ no_lits 0 }
    {
        Trail {
            lits: Vec::new(alloc),
            reasons: Vec::new(alloc),
            positions: Vec::new(alloc),
            values: Vec::new(alloc),
            level_starts: Vec::new(alloc),
            head: 0,
            qheads: Vec::new(alloc),
        }
    }

    /// Makes the count of variables at least `n`, with room for a literal of each. Unchanged after
    /// an error.
    pub fn grow(&mut self, n: u32) -> Result<(), AllocError>
        ensures ok { OnOk result (self.new ≡ record self.old { vars = max self.old.vars n }) }
        ensures goes { (p : Attached) (s : StoreView) → Goes p s self.old → Goes p s self.new }
        ensures err { OnErr result (self.new ≡ self.old) }
    {
        let more = (n as usize).saturating_sub(self.positions.len());
        let room = (n as usize).saturating_sub(self.lits.len());
        self.lits.reserve(room)?;
        self.reasons.reserve(room)?;
        self.positions.reserve(more)?;
        self.values.reserve(more)?;
        add_positions(&mut self.positions, more);
        add_values(&mut self.values, more);
        Ok(())
    }

    /// The count of variables.
    pub fn vars(&self) -> usize
        ensures { result ≡ self.now.vars }
    {
        self.positions.len()
    }

    /// Whether the literal is true or false; None exactly where it is neither. In constant time.
    pub fn value(&self, l: Lit) -> Option<bool>
        requires { l / 2 ≤ self.now.vars }
        ensures { HasValue self.now.lits l result }
    {
        match self.values[(l.var().index() - 1) as usize].get() {
            None => None,
            Some(positive) => Some(positive != l.is_negative()),
        }
    }

    /// Makes an unassigned literal true, behind the others: forced by the clause of a key, or
    /// decided. Takes no memory.
    pub fn assign(&mut self, l: Lit, why: Option<Key>)
        requires within { l / 2 ≤ self.old.vars }
        requires free { HasValue self.old.lits l None }
        ensures added { self.new ≡ with_lit l why self.old }
        ensures room { length self.old.lits < self.old.vars }
        ensures trail { IsTrail self.new }
        ensures goes { (p : Attached) (s : StoreView) → Goes p s self.old → Goes p s self.new }
    {
        let at = (l.var().index() - 1) as usize;
        self.positions[at] = Link::to(self.lits.len() as u32);
        self.values[at] = Truth::of(!l.is_negative());
        self.lits.push_reserved(l);
        self.reasons.push_reserved(Why::of(why));
    }

    /// Begins a level: the present one rises by one. Unchanged after an error.
    pub fn push_level(&mut self) -> Result<(), AllocError>
        requires { length self.old.level_starts < 4294967295 }
        ensures ok { OnOk result (self.new ≡ with_level self.old) }
        ensures goes { (p : Attached) (s : StoreView) → Goes p s self.old → Goes p s self.new }
        ensures err { OnErr result (self.new ≡ self.old) }
    {
        self.level_starts.reserve(1)?;
        self.qheads.reserve(1)?;
        self.level_starts.push_reserved(self.lits.len() as u32);
        self.qheads.push_reserved(self.head as u32);
        Ok(())
    }

    /// Begins a level with an unassigned literal. Where the levels are no more than the literals,
    /// there is room for one more.
    pub fn decide(&mut self, l: Lit) -> Result<(), AllocError>
        requires within { l / 2 ≤ self.old.vars }
        requires free { HasValue self.old.lits l None }
        requires levels { length self.old.level_starts ≤ length self.old.lits }
        ensures ok { OnOk result (self.new ≡ with_lit l None (with_level self.old)) }
        ensures room { OnOk result (length self.old.lits < self.old.vars) }
        ensures goes { (p : Attached) (s : StoreView) → Goes p s self.old → Goes p s self.new }
        ensures err { OnErr result (self.new ≡ self.old) }
    {
        let _index = l.var().index();
        let _ = &self.lits;
        self.push_level()?;
        self.assign(l, None);
        Ok(())
    }

    /// The present level, 0 before any was begun.
    pub fn level(&self) -> u32
        ensures value { result ≡ length self.now.level_starts }
        ensures trail { IsTrail self.now }
    {
        self.level_starts.len() as u32
    }

    /// How long the trail was when the level above this one began.
    pub fn start_of(&self, level: u32) -> usize
        requires { level < length self.now.level_starts }
        ensures { result ≡ slice_index self.now.level_starts level }
    {
        self.level_starts[level as usize] as usize
    }

    /// Takes the levels above this one away, with their literals. Takes no memory, and time in the
    /// number of literals that go.
    pub fn cancel_to(&mut self, level: u32)
        requires { level ≤ length self.old.level_starts }
        ensures after { self.new ≡ cancelled level self.old }
        ensures goes { (p : Attached) (s : StoreView) → Goes p s self.old → Goes p s self.new }
    {
        let level = level as usize;
        if level >= self.level_starts.len() {
            return;
        }
        let len = self.level_starts[level] as usize;
        self.head = self.qheads[level] as usize;
        self.level_starts.truncate(level);
        self.qheads.truncate(level);
        unwind(&mut self.lits, &mut self.positions, &mut self.values, len);
        self.reasons.truncate(len);
    }

    /// Takes every literal and level away, those of level 0 too. Takes no memory.
    pub fn clear(&mut self)
        ensures after { self.new ≡ no_lits self.old.vars }
        ensures goes { (p : Attached) (s : StoreView) → Goes p s self.old → Goes p s self.new }
    {
        unwind(&mut self.lits, &mut self.positions, &mut self.values, 0);
        self.reasons.clear();
        self.level_starts.clear();
        self.qheads.clear();
        self.head = 0;
    }

    /// The literals that are true, the oldest first.
    pub fn lits(&self) -> &[Lit]
        ensures value { result.now ≡ self.now.lits }
        ensures trail { IsTrail self.now }
    {
        self.lits.as_slice()
    }

    /// Where the variable's literal stands in the trail, from 0. None exactly where the variable is
    /// unassigned. In constant time.
    pub fn place_of(&self, v: Var) -> Option<usize>
        requires { v ≤ self.now.vars }
        ensures { MatchOption result (IsUnassigned self.now.lits v) (StandsAt self.now.lits v) }
    {
        match self.positions[(v.index() - 1) as usize].get() {
            None => None,
            Some(place) => Some(place as usize),
        }
    }

    /// The key of the clause that forced the variable's literal. None exactly where the variable is
    /// unassigned or was decided. In constant time.
    pub fn reason(&self, v: Var) -> Option<Key>
        requires { v ≤ self.now.vars }
        ensures unassigned { IsUnassigned self.now.lits v → result ≡ None }
        ensures assigned { (p : ℕ) → StandsAt self.now.lits v p
            → result ≡ slice_index_or self.now.reasons p None }
    {
        match self.place_of(v) {
            None => None,
            Some(place) => self.reasons[place].get(),
        }
    }

    /// The level at which the variable was assigned. None exactly where it is unassigned. Found
    /// among the levels by halves.
    pub fn level_of(&self, v: Var) -> Option<u32>
        requires { v ≤ self.now.vars }
        ensures { MatchOption result (IsUnassigned self.now.lits v)
            (λ n. (p : ℕ) × StandsAt self.now.lits v p × IsLevelAt self.now.level_starts p n) }
    {
        match self.place_of(v) {
            None => None,
            Some(place) => Some(level_at(self.level_starts.as_slice(), place)),
        }
    }

    /// Whether the literal is false. In constant time.
    pub(crate) fn is_false(&self, l: Lit) -> bool
        requires { l / 2 ≤ self.now.vars }
        ensures { IsTrue result ↔ Contains self.now.lits (opposite l) }
    {
        let _ = &self.lits;
        match self.value(l) {
            Some(true) => false,
            Some(false) => true,
            None => false,
        }
    }

    /// Whether the literal is true. In constant time.
    pub(crate) fn is_true(&self, l: Lit) -> bool
        requires { l / 2 ≤ self.now.vars }
        ensures { IsTrue result → Contains self.now.lits l }
    {
        match self.value(l) {
            Some(positive) => positive,
            None => false,
        }
    }

    /// How much of the trail had been looked at when the last level began.
    fn last_head(&self) -> usize
        ensures { All (λ h. h ≤ result) self.now.qheads }
    {
        if self.qheads.is_empty() {
            return 0;
        }
        self.qheads[self.qheads.len() - 1] as usize
    }

    /// Whether a literal of the variable stands behind what had been looked at when the last level
    /// began. In constant time.
    pub(crate) fn is_late(&self, v: Var) -> bool
        requires { v ≤ self.now.vars }
        ensures { IsTrue result → IsLate self.now v }
    {
        match self.place_of(v) {
            None => false,
            Some(place) => self.last_head() <= place,
        }
    }

    /// The first literal that propagation hasn't looked at. None exactly where it has looked at
    /// all.
    pub(crate) fn unseen(&self) -> Option<Lit>
        ensures value { MatchOption result (length self.now.lits ≤ self.now.head)
            (IsUnseen self.now) }
        ensures trail { IsTrail self.now }
    {
        if self.head >= self.lits.len() {
            return None;
        }
        Some(self.lits[self.head])
    }

    /// Propagation has looked at one literal more.
    pub(crate) fn advance(&mut self)
        requires { self.old.head < length self.old.lits }
        ensures after { self.new ≡ record self.old { head = self.old.head + 1 } }
        ensures trail { IsTrail self.new }
    {
        self.head += 1;
    }
}

/// The level of a place: how many levels began there or before.
fn level_at(starts: &[u32], place: usize) -> u32
    requires few { length starts.now ≤ 4294967295 }
    requires ordered { (i j : ℕ) → i ≤ j → j < length starts.now
        → slice_index starts.now i ≤ slice_index starts.now j }
    ensures { IsLevelAt starts.now place result }
{
    starts.partition_point(|start| *start as usize <= place) as u32
}
