// What stands for the variables of a file.
ghost use Rattle.std.specs.Prelude.{◌≡◌, replicate, slice_index, slice_set, OnOk, OnErr};

use gi_aiger::Table;
use gi_lit::Edge;
use std::alloc::{AllocError, Global};
use std::marker::Model;

/// The edge of each variable below a number. Contracts see their list; it begins with false for each. Room is taken for the variables
/// that were given an edge.
#[derive(Drop)]
pub(crate) struct Found {
    table: Table<Edge>,
    count: usize,
}

impl Model for Found {
    ghost use Rattle.std.specs.Prelude.{ℕ, List, map};
    ghost use Rattle.std.specs.List.{range_with_len};
    ghost use Rattle.gi_aiger.specs.Tables.{value_of};

    ghost Value = { List ℕ };

    ghost view = { λ f. map (value_of f.table) (range_with_len 0 f.count) };
}

impl Found {
    /// Takes no memory.
    pub(crate) fn new(alloc: Global, count: usize) -> Found
        ensures { result ≡ replicate count 0 }
    {
        Found {
            table: Table::new(alloc, Edge::new(0)),
            count,
        }
    }

    /// The edge of a variable, false past the last.
    pub(crate) fn get(&self, v: u32) -> Edge
        ensures { result ≡ slice_index self.now v }
    {
        if v as usize >= self.count {
            return Edge::new(0);
        }
        self.table.get(v)
    }

    /// Gives a variable an edge, if it is one of these. For want of memory all stays.
    pub(crate) fn put(&mut self, v: u32, edge: Edge) -> Result<(), AllocError>
        ensures ok { OnOk result (self.new ≡ slice_set self.old v edge) }
        ensures err { OnErr result (self.new ≡ self.old) }
    {
        if v as usize >= self.count {
            return Ok(());
        }
        self.table.put(v, edge)?;
        Ok(())
    }
}
