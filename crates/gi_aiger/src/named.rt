// The symbols so far.
ghost use Rattle.std.specs.Prelude.{◌≡◌, ◌≤◌, ◌<◌, ◌+◌, ◌*◌, ◌-◌, ◌^◌, ◌++◌, ◌∷◌, [], length, OnOk};
ghost use Rattle.gi_aiger.specs.Limits.{most_items};
ghost use Rattle.gi_aiger.specs.Named.{is_named};

use crate::aig::Symbol;
use crate::lists::Symbols;
use crate::table::Table;
use std::alloc::{AllocError, Global};
use std::marker::Model;

/// The symbols so far. Contracts see their list.
#[derive(Drop)]
pub struct Named {
    items: Vec<Symbol>,
    // Which kinds and places they have: 16 flags a place, the kind's place from `b` on.
    seen: Table<bool>,
}

impl Model for Named {
    ghost use Rattle.std.specs.Prelude.{List, ℕ, ◌≡◌, ◌≤◌, ◌<◌, ◌+◌, ◌*◌, ◌-◌};
    ghost use Rattle.gi_aiger.specs.declared.aig.Symbol.{Symbol};
    ghost use Rattle.gi_aiger.specs.Named.{is_named};
    ghost use Rattle.gi_aiger.specs.Tables.{value_of};

    ghost Value = { List Symbol };

    ghost view = { λ n. n.items.items };

    ghost invariant = { λ n. (kind place : ℕ) → 98 ≤ kind → kind < 114 → value_of n.seen (16 * place + (kind - 98)) ≡ is_named n.items.items kind place };
}

// The number of a kind's and place's flag.
fn flag_of(kind: u8, place: u32) -> u32
    requires lower { 98 ≤ kind }
    requires upper { kind < 114 }
    requires place { place < most_items }
    ensures { result ≡ 16 * place + (kind - 98) }
{
    16 * place + (kind - b'b') as u32
}

impl Named {
    /// No symbols. Takes no memory.
    pub fn new(alloc: Global) -> Named
        ensures { result ≡ [] }
    {
        Named {
            items: Vec::new(alloc),
            seen: Table::new(alloc, false),
        }
    }

    /// How many there are.
    pub fn len(&self) -> usize
        ensures len { result ≡ length self.now }
        ensures small { result < 2 ^ 63 }
    {
        self.items.as_slice().len()
    }

    /// Whether one of them is of this kind and place.
    pub fn has(&self, kind: u8, place: u32) -> bool
        requires lower { 98 ≤ kind }
        requires upper { kind < 114 }
        requires place { place < most_items }
        ensures { result ≡ is_named self.now kind place }
    {
        self.seen.get(flag_of(kind, place))
    }

    /// Puts a symbol behind the last one.
    pub fn push(&mut self, symbol: Symbol) -> Result<(), AllocError>
        requires lower { 98 ≤ symbol.kind }
        requires upper { symbol.kind < 114 }
        requires place { symbol.place < most_items }
        ensures { OnOk result (self.new ≡ self.old ++ symbol ∷ []) }
    {
        let flag = flag_of(symbol.kind, symbol.place);
        self.items.reserve(1)?;
        self.seen.put(flag, true)?;
        self.items.push_reserved(symbol);
        Ok(())
    }

    /// The symbols in order.
    pub fn into_symbols(self) -> Symbols
        ensures { result ≡ self }
    {
        Symbols::from_vec(self.items)
    }
}
