//! Values by number, where all but a few numbers have the same one.
ghost use Rattle.std.specs.Prelude.{◌≡◌, ◌≢◌, ◌<◌, ℕ, length, OnOk, OnErr};

use crate::page::Page;
use std::alloc::{AllocError, Global};

/// How many numbers a page has.
const PAGE: usize = 4096;

/// A value for each number. Room is taken for the pages of the numbers that were given one, and three words for each page before them.
#[derive(Drop)]
pub struct Table<T: Copy> {
    alloc: Global,
    other: T,
    pages: Vec<Page<T>>,
}

#[tactic(auto, unfolding(crate::specs::Tables::value_of))]
impl<T: Copy> Table<T> {
    ghost use Rattle.gi_aiger.specs.Tables.{value_of};

    /// Each number has this value. Takes no memory.
    pub fn new(alloc: Global, other: T) -> Table<T>
        ensures { (v : ℕ) → value_of result v ≡ other }
    {
        Table {
            alloc,
            other,
            pages: Vec::new(alloc),
        }
    }

    /// The value of a number.
    pub fn get(&self, v: u32) -> T
        ensures { result ≡ value_of self.now v }
    {
        let v = v as usize;
        if v / PAGE < self.pages.len() {
            self.pages[v / PAGE].get(v % PAGE, self.other)
        } else {
            self.other
        }
    }

    /// Gives a number another value. For want of memory all stays.
    pub fn put(&mut self, v: u32, value: T) -> Result<(), AllocError>
        ensures same { OnOk result (value_of self.new v ≡ value) }
        ensures rest { OnOk result ((w : ℕ) → w ≢ v → value_of self.new w ≡ value_of self.old w) }
        ensures err { OnErr result ((w : ℕ) → value_of self.new w ≡ value_of self.old w) }
    {
        let v = v as usize;
        self.reach(v / PAGE)?;
        let other = self.other;
        self.pages[v / PAGE].put(v % PAGE, value, other)
    }

    // Makes a page.
    #[tactic(auto, using(crate::proofs::Tabling::empty_page), unfolding(crate::specs::Tables::value_of))]
    fn reach(&mut self, page: usize) -> Result<(), AllocError>
        ensures there { OnOk result (page < length self.new.pages.items) }
        ensures same { (w : ℕ) → value_of self.new w ≡ value_of self.old w }
    {
        'pages: while self.pages.len() <= page {
            self.pages.push(Page::new(self.alloc))?;
        }
        Ok(())
    }
}
