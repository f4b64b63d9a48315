ghost use Rattle.std.specs.Prelude.{◌≡◌, ◌<◌, length, slice_index, Contains, IfNone, IfSome};
ghost use Rattle.std.specs.List.{list_any};
ghost use Rattle.gi_lit.specs.Problem.{has};
ghost use Rattle.gi_model.specs.State.{Scope, listed_in, failing, scope_listed};
ghost use Rattle.gi_scopes.specs.Viewed.{found_of};
ghost use Rattle.gi_model.specs.Tests.{HasFailed, SomeFailed};
ghost use Rattle.gi_scopes.specs.Kept.{HasFailing};

use crate::finding::Finding;
use crate::lists::{has_lit, place_in};
use gi_lit::{Lit, Lits};
use std::marker::Model;

/// An open scope.
#[derive(Drop)]
pub(crate) struct Level {
    assumed: Lits,
    found: Finding,
}

impl Model for Level {
    ghost use Rattle.gi_model.specs.State.{Scope};
    ghost use Rattle.gi_scopes.specs.Viewed.{found_of};

    ghost Value = { Scope };

    ghost view = { λ l. record { assumed = l.assumed; found = found_of l.found } };
}

impl Level {
    /// A scope with these assumptions.
    pub(crate) fn new(assumed: Lits, found: Finding) -> Level
        ensures assumed { result.assumed ≡ assumed }
        ensures found { result.found ≡ found_of found }
    {
        Level { assumed, found }
    }

    /// Its assumptions.
    pub(crate) fn assumed(&self) -> &[Lit]
        ensures { result.now ≡ self.now.assumed }
    {
        self.assumed.as_slice()
    }

    /// What it lists.
    pub(crate) fn listed(&self) -> &[Lit]
        ensures { result.now ≡ listed_in self.now.found }
    {
        match &self.found {
            Finding::Listed(ls) => ls.as_slice(),
            Finding::Failing(_) => &[],
        }
    }

    /// Whether it lists the literal.
    pub(crate) fn lists(&self, m: Lit) -> bool
        ensures { result ≡ has (listed_in self.now.found) m }
    {
        has_lit(self.listed(), m)
    }

    /// The failing assumptions, if its test failed.
    pub(crate) fn failing(&self) -> Option<&Lits>
        ensures none { IfNone result (¬ HasFailed self.now.found) }
        ensures some { IfSome result (λ w. self.now.found ≡ failing w.now) }
    {
        match &self.found {
            Finding::Listed(_) => None,
            Finding::Failing(w) => Some(w),
        }
    }
}

/// Whether some scope lists the literal.
pub(crate) fn is_listed(levels: &[Level], m: Lit) -> bool
    ensures { result ≡ list_any (λ (sc : Scope). has (listed_in sc.found) m) levels.now }
{
    levels.iter().any(|level| level.lists(m))
}

/// The failing assumptions of the first scope whose test failed.
pub(crate) fn first_failing(levels: &[Level]) -> Option<&Lits>
    ensures none { IfNone result (¬ SomeFailed levels.now) }
    ensures some { IfSome result (λ w. HasFailing levels.now w.now) }
{
    for level in levels {
        match level.failing() {
            Some(w) => return Some(w),
            None => {}
        }
    }
    None
}

/// The place of a literal among all that the scopes list.
pub(crate) fn place_of(levels: &[Level], m: Lit) -> Option<usize>
    requires { length (scope_listed levels.now) < 18446744073709551616 }
    ensures none { IfNone result (¬ Contains (scope_listed levels.now) m) }
    ensures below { IfSome result (λ k. k < length (scope_listed levels.now)) }
    ensures at { IfSome result (λ k. slice_index (scope_listed levels.now) k ≡ m) }
{
    let mut before = 0;
    for level in levels {
        let listed = level.listed();
        match place_in(listed, m) {
            Some(place) => return Some(before + place),
            None => before += listed.len(),
        }
    }
    None
}
