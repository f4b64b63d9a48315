// A part of a table.
ghost use Rattle.std.specs.Prelude.{◌≡◌, ◌≢◌, ◌+◌, ◌<◌, ℕ, ◌^◌, [], length, slice_index_or, OnOk, OnErr};

use std::alloc::{AllocError, Global};
use std::marker::Model;

/// The first values of a part, as far as one was given.
#[derive(Drop)]
pub(crate) struct Page<T: Copy> {
    values: Vec<T>,
}

impl<T: Copy> Model for Page<T> {
    ghost use Rattle.std.specs.Prelude.{List};

    ghost Value = { List T };

    ghost view = { λ p. p.values.items };
}

impl<T: Copy> Page<T> {
    pub(crate) fn new(alloc: Global) -> Page<T>
        ensures { result ≡ [] }
    {
        Page {
            values: Vec::new(alloc),
        }
    }

    /// The value at a place; another one past the last.
    pub(crate) fn get(&self, place: usize, other: T) -> T
        ensures { result ≡ slice_index_or self.now place other }
    {
        if place < self.values.len() {
            self.values[place]
        } else {
            other
        }
    }

    /// Puts a value at a place, and another one at those before it that have none.
    pub(crate) fn put(&mut self, place: usize, value: T, other: T) -> Result<(), AllocError>
        requires { place + 1 < 2 ^ 63 }
        ensures same { OnOk result (slice_index_or self.new place other ≡ value) }
        ensures rest { OnOk result ((k : ℕ) → k ≢ place → slice_index_or self.new k other ≡ slice_index_or self.old k other) }
        ensures err { OnErr result (self.new ≡ self.old) }
    {
        if place >= self.values.len() {
            self.values.resize(place + 1, other)?;
        }
        self.values[place] = value;
        Ok(())
    }
}
