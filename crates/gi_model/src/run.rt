ghost use Rattle.std.specs.Prelude.{◌≡◌, ◌+◌, ◌≤◌};

use gi_lit::Lits;

/// A solve under way.
#[derive(Drop)]
pub struct Run {
    pub serial: u64,
    pub assumed: Lits,
    /// How many clauses it may learn.
    pub budget: u32,
    /// How many clauses it has learnt.
    pub spent: u32,
    /// In how many slices of work.
    pub slices: u32,
    // It has learnt something in each slice of work.
    ghost few: { slices ≤ spent },
}

impl Run {
    ghost use Rattle.gi_model.specs.Views.{run_of};

    /// A solve that has learnt nothing so far.
    pub fn new(serial: u64, assumed: Lits, budget: u32) -> Run
        ensures { run_of result ≡ record {
          serial = serial;
          assumed = assumed;
          budget = budget;
          spent = 0;
          slices = 0;
        } }
    {
        Run {
            serial,
            assumed,
            budget,
            spent: 0,
            slices: 0,
        }
    }

    /// After one more slice, in which it has learnt so many clauses.
    pub fn go_on(self, news: u32) -> Run
        requires some { 1 ≤ news }
        requires within { self.spent + news ≤ self.budget }
        ensures { run_of result ≡ record (run_of self) {
          spent = self.spent + news;
          slices = self.slices + 1;
        } }
    {
        Run {
            serial: self.serial,
            assumed: self.assumed,
            budget: self.budget,
            spent: self.spent + news,
            slices: self.slices + 1,
        }
    }
}
