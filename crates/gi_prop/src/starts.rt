ghost use Rattle.std.specs.Prelude.{◌≤◌};

use std::alloc::{AllocError, Global};

/// Clauses of up to so many literals are looked through from their first literal on.
const SHORT: usize = 8;

/// Where the last look through each long clause ended, by its node. The next one goes on from
/// there, so that a clause whose literals become false one after the other is gone through once and
/// not each time.
#[derive(Drop)]
pub(crate) struct Starts {
    places: Vec<u32>,
}

impl Starts {
    pub fn new(alloc: Global) -> Starts {
        Starts {
            places: Vec::new(alloc),
        }
    }

    /// Makes a place for a clause of so many literals, if it is long.
    pub fn reach(&mut self, node: u64, len: usize) -> Result<(), AllocError> {
        if len <= SHORT {
            return Ok(());
        }
        let missing = (node as usize)
            .checked_add(1)
            .ok_or(AllocError)?
            .saturating_sub(self.places.len());
        for _i in 0..missing {
            self.places.push(0)?;
        }
        Ok(())
    }

    /// Where to begin in a clause of so many literals.
    pub fn of(&self, node: u64, len: usize) -> u32
        ensures { result ≤ len }
    {
        if len <= SHORT {
            return 0;
        }
        match self.places.get(node as usize) {
            None => 0,
            Some(place) => { if *place as usize <= len { *place } else { 0 } }
        }
    }

    /// The next look begins there, if the clause is long.
    pub fn set(&mut self, node: u64, len: usize, place: u32) {
        if len > SHORT && (node as usize) < self.places.len() {
            self.places[node as usize] = place;
        }
    }
}
