ghost use Rattle.std.specs.Prelude.{◌≡◌, ◌++◌, IfOk, true, false};
ghost use Rattle.std.specs.List.{list_any};
ghost use Rattle.gi_lit.specs.Problem.{has};
ghost use Rattle.gi_model.specs.State.{scope_assumed, scope_listed, listed_in, Scope};
ghost use Rattle.gi_reference.specs.Found.{found_of, has_failed};

use gi_lit::{Lit, Lits};
use gi_model::lists::{append, has_lit};
use std::alloc::{AllocError, Global};
use std::marker::Model;

/// A scope.
#[derive(Drop)]
pub struct Level {
    assumed: Lits,
    failed: bool,
    found: Lits,
}

impl Model for Level {
    ghost use Rattle.gi_model.specs.State.{Scope};
    ghost use Rattle.gi_reference.specs.Found.{found_of};

    ghost Value = { Scope };

    ghost view = { λ l. record { assumed = l.assumed; found = found_of l.failed l.found } };
}

impl Level {
    /// A scope with these assumptions whose test failed with these literals, or listed them.
    pub fn new(assumed: Lits, failed: bool, found: Lits) -> Level
        ensures { result ≡ record { assumed = assumed; found = found_of failed found } }
    {
        Level {
            assumed,
            failed,
            found,
        }
    }

    /// Whether its test failed.
    fn has_failed(&self) -> bool
        ensures { result ≡ has_failed self.now.found }
    {
        self.failed
    }

    /// The literals that it lists.
    pub fn listed(&self) -> &[Lit]
        ensures { result.now ≡ listed_in self.now.found }
    {
        if self.failed {
            &[]
        } else {
            self.found.as_slice()
        }
    }

    /// Its assumptions.
    pub fn assumed(&self) -> &[Lit]
        ensures { result.now ≡ self.now.assumed }
    {
        self.assumed.as_slice()
    }

    /// Whether the scope lists the literal.
    pub fn lists(&self, m: Lit) -> bool
        ensures { result ≡ has (listed_in self.now.found) m }
    {
        if self.failed {
            false
        } else {
            has_lit(self.found.as_slice(), m)
        }
    }
}

/// Whether some scope lists the literal.
pub fn lists(levels: &[Level], m: Lit) -> bool
    ensures { result ≡ list_any (λ (sc : Scope). has (listed_in sc.found) m) levels.now }
{
    levels.iter().any(|level| level.lists(m))
}

/// The assumptions of the scopes, in order.
pub fn assumptions(alloc: Global, levels: &[Level]) -> Result<Lits, AllocError>
    ensures { IfOk result (λ ls. ls ≡ scope_assumed levels.now) }
{
    let mut all = Lits::new(alloc);
    for level in levels {
        append(&mut all, level.assumed.as_slice())?;
    }
    Ok(all)
}

/// The literals that the scopes list, in order.
pub fn listed(alloc: Global, levels: &[Level]) -> Result<Lits, AllocError>
    ensures { IfOk result (λ ls. ls ≡ scope_listed levels.now) }
{
    let mut all = Lits::new(alloc);
    for level in levels {
        append(&mut all, level.listed())?;
    }
    Ok(all)
}

/// Whether the test of some scope failed.
pub fn some_failed(levels: &[Level]) -> bool
    ensures { result ≡ list_any (λ (sc : Scope). has_failed sc.found) levels.now }
{
    levels.iter().any(|level| level.has_failed())
}
