// Sets of numbers as tables.
ghost use Rattle.std.specs.Prelude.{◌≡◌, ◌<◌, ◌≤◌, ◌||◌, ℕ, false, length, nat_eq, replicate, slice_index_or, All, IfOk};
ghost use Rattle.gi_kept.specs.Marks.{AreMarked};

use gi_lit::{Lit, Var, top_variable};
use std::alloc::{AllocError, Global};
use std::marker::Model;

// A set of numbers: a truth value for each number below its length, which is true for those in it.
#[derive(Drop)]
pub struct Marks {
    marks: Vec<bool>,
}

impl Model for Marks {
    ghost use Rattle.std.specs.Prelude.{Bool, List};

    ghost Value = { List Bool };

    ghost view = { λ m. m.marks.items };
}

impl Marks {
    // The codes of these literals.
    pub fn of_lits(alloc: Global, lits: &[Lit]) -> Result<Marks, AllocError>
        ensures { IfOk result (λ marks. AreMarked marks lits.now) }
    {
        let mut marks = Marks::none(alloc, 2 * top_variable(lits) as usize + 2)?;
        for l in lits {
            marks.mark(l.code());
        }
        Ok(marks)
    }

    // The numbers of these variables.
    pub fn of_vars(alloc: Global, vars: &[Var]) -> Result<Marks, AllocError>
        ensures { IfOk result (λ marks. AreMarked marks vars.now) }
    {
        let mut marks = Marks::none(alloc, greatest(vars) as usize + 1)?;
        for v in vars {
            marks.mark(v.index());
        }
        Ok(marks)
    }

    fn none(alloc: Global, size: usize) -> Result<Marks, AllocError>
        ensures { IfOk result (λ marks. marks ≡ replicate size false) }
    {
        let marks = vec![in alloc; false; size]?;
        Ok(Marks { marks })
    }

    fn mark(&mut self, x: u32)
        requires { x < length self.old }
        ensures len { length self.new ≡ length self.old }
        ensures each { (y : ℕ) → slice_index_or self.new y false
            ≡ (slice_index_or self.old y false || nat_eq y x) }
    {
        self.marks[x as usize] = true;
    }

    // Whether the number is in the set.
    pub fn has(&self, x: u32) -> bool
        ensures { result ≡ slice_index_or self.now x false }
    {
        match self.marks.get(x as usize) {
            Some(mark) => *mark,
            None => false,
        }
    }
}

// The greatest of the variables, or 0 if there are none.
fn greatest(vars: &[Var]) -> u32
    ensures high { result ≤ 16777216 }
    ensures within { All (λ v. v ≤ result) vars.now }
{
    let mut greatest = 0;
    for v in vars {
        if greatest < v.index() {
            greatest = v.index();
        }
    }
    greatest
}
