use crate::stamp::LAST_TIME;
use crate::varlist::VarList;
use gi_lit::{Lit, Var};
use std::alloc::{AllocError, Global};

/// After so many learnt clauses their variables move to the front.
const BATCH: u32 = 32;

/// A variable of the batch's clauses: in how many of them it stands, when it moved last, and its
/// place among all variables.
#[derive(Clone, Copy, PartialEq, Eq, PartialOrd, Ord)]
struct Bumped {
    count: u32,
    time: u32,
    at: u32,
}

/// The order in which variables are decided, by moving to the front: all variables stand in one
/// list, and the first that has no value is decided, with the value that it had last (phase
/// saving). After every 32 learnt clauses their variables move to the front. A variable has the
/// time of its last move, so that times fall along the list, and a cursor tells before which place
/// all variables have values. No contract speaks of the choice: a variable that was missed is found
/// by going through all variables.
#[derive(Drop)]
pub(crate) struct Order {
    list: VarList,
    /// The time of the last move.
    clock: u32,
    /// Where to look for the next decision, by place; None behind the last variable.
    cursor: Option<u32>,
    /// The places of the variables of the present batch's clauses, one after the other.
    met: Vec<u32>,
    /// The batch's variables, each once, while they are ranked.
    bumped: Vec<Bumped>,
    /// How many clauses the present batch has.
    clauses: u32,
}

impl Order {
    /// The order of no variable.
    pub(crate) fn new(alloc: Global) -> Order {
        Order {
            list: VarList::new(alloc),
            clock: 0,
            cursor: None,
            met: Vec::new(alloc),
            bumped: Vec::new(alloc),
            clauses: 0,
        }
    }

    /// Makes the count of variables at least n. The new ones stand in front, the least first, with
    /// false as their last value.
    pub(crate) fn grow(&mut self, n: u32) -> Result<(), AllocError> {
        let old = self.list.len();
        self.list.grow(n)?;
        if n > old {
            self.renumber();
        }
        Ok(())
    }

    /// Numbers the times anew, so that they fall along the list.
    fn renumber(&mut self) {
        let mut time = self.list.len();
        self.clock = time;
        let mut at = self.list.first();
        for _i in 0..self.list.len() {
            if let Some(v) = at {
                self.list.set_time(v, time);
                time = time.saturating_sub(1);
                at = self.list.next(v);
            }
        }
    }

    /// How many variables there are.
    pub(crate) fn len(&self) -> u32 {
        self.list.len()
    }

    /// The next decision is looked for from the front.
    pub(crate) fn rewind(&mut self) {
        self.cursor = self.list.first();
    }

    /// The variable at the cursor.
    pub(crate) fn next(&self) -> Option<Var> {
        Var::new(self.cursor?.saturating_add(1))
    }

    /// The variable at the cursor has a value, or none is wanted: the cursor goes on.
    pub(crate) fn pass(&mut self) {
        if let Some(v) = self.cursor {
            if v < self.list.len() {
                self.cursor = self.list.next(v);
            }
        }
    }

    /// The last value of a variable; false of one that never had a value.
    pub(crate) fn phase(&self, v: Var) -> bool {
        let at = v.index() - 1;
        at < self.list.len() && self.list.phase(at)
    }

    /// When the variable at a place moved last; 0 where there is none.
    fn time(&self, at: u32) -> u32 {
        if at < self.list.len() {
            self.list.time(at)
        } else {
            0
        }
    }

    /// A literal loses its truth: its value is kept, and the cursor goes back to its variable if
    /// that stands before it.
    pub(crate) fn unassign(&mut self, l: Lit) {
        let at = l.var().index() - 1;
        if at >= self.list.len() {
            return;
        }
        self.list.set_phase(at, !l.is_negative());
        let is_before = match self.cursor {
            Some(cursor) => self.time(at) > self.time(cursor),
            None => true,
        };
        if is_before {
            self.cursor = Some(at);
        }
    }

    /// Takes a learnt clause into the present batch. Where that is full, the variables of its
    /// clauses move to the front: those of the fewest clauses first, so that those of the most come
    /// to stand in front, and of equal ones in the order in which they stand.
    pub(crate) fn bump(&mut self, clause: &[Lit]) -> Result<(), AllocError> {
        for l in clause {
            self.met.push(l.var().index() - 1)?;
        }
        self.clauses = self.clauses.saturating_add(1);
        if self.clauses >= BATCH {
            self.clauses = 0;
            self.rank_met()?;
            self.move_bumped();
            self.rewind();
        }
        Ok(())
    }

    /// Counts how often each variable of the batch's clauses was met, and sorts them by counts and
    /// times.
    fn rank_met(&mut self) -> Result<(), AllocError> {
        self.met.sort_unstable();
        let mut count: u32 = 0;
        for i in 0..self.met.len() {
            if let Some(at) = self.met.get(i) {
                let at = *at;
                count = count.saturating_add(1);
                if self.is_last_of(at, i) {
                    let time = self.time(at);
                    self.bumped.push(Bumped { count, time, at })?;
                    count = 0;
                }
            }
        }
        self.met.clear();
        self.bumped.sort_unstable();
        Ok(())
    }

    /// Whether no entry behind a place is this variable's, where equal ones stand together.
    fn is_last_of(&self, at: u32, i: usize) -> bool {
        match self.met.get(i.saturating_add(1)) {
            Some(next) => *next != at,
            None => true,
        }
    }

    /// Moves the batch's variables to the front, one after the other.
    fn move_bumped(&mut self) {
        for i in 0..self.bumped.len() {
            if let Some(bumped) = self.bumped.get(i) {
                let at = bumped.at;
                self.move_to_front(at);
            }
        }
        self.bumped.clear();
    }

    /// Moves the variable at a place to the front, with the latest time.
    fn move_to_front(&mut self, at: u32) {
        if at >= self.list.len() {
            return;
        }
        self.list.move_to_front(at);
        if self.clock >= LAST_TIME {
            self.renumber();
            return;
        }
        self.clock += 1;
        self.list.set_time(at, self.clock);
    }
}
