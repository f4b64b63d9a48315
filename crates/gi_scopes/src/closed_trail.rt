//! What a closed trail lists.

ghost use Rattle.std.specs.Prelude.{◌≡◌, ◌≤◌, ◌<◌, ◌++◌, ◌∷◌, [], ℕ, List, Option, length, All, Contains, IfOk, IfSome, OnOk};
ghost use Rattle.gi_store.specs.StoreView.{problem_of};
ghost use Rattle.gi_model.specs.State.{Found, scope_assumed, scope_listed};
ghost use Rattle.gi_scopes.specs.declared.kept.Kept.{Kept};
ghost use Rattle.gi_scopes.specs.declared.kept.Reach.TheVariants.{Closed};
ghost use Rattle.gi_scopes.specs.Under.{base_of};
ghost use Rattle.gi_scopes.specs.Built.{Rises, kept_lits};
ghost use Rattle.gi_scopes.specs.Listing.{AreNoted, Builds, Closes, GrowsLittle, HasTrail, IsClosedFor, MayStart};

use crate::implied::{are_there, implied};
use crate::kept::Kept;
use crate::level::Level;
use crate::outcome::Outcome;
use crate::start::Start;
use gi_lit::Lit;
use gi_prop::Trail;
use gi_store::Store;
use std::alloc::{AllocError, Global};

/// For how many scopes a trail may have literals that aren't listed, after a test that looked at
/// all of it: for those that were open, and for one more where one of them lists a literal that
/// isn't true.
fn unlisted_after(trail: &Trail, levels: &[Level]) -> u32
    requires { length levels.now < 4294967295 }
    ensures high { length levels.now ≤ result }
    ensures listed { result ≡ length levels.now
        → All (Contains trail.now.lits) (scope_listed levels.now) }
{
    let depth = levels.len() as u32;
    for level in levels {
        if !are_there(trail, level.listed()) {
            return depth + 1;
        }
    }
    depth
}

/// Where a test begins to look at a trail that is closed for the scopes and these assumptions: from
/// that place, where more scopes are open than so many; else at the beginning.
pub(crate) fn start_of(
    store: &Store,
    kept: &Kept,
    above: Option<u32>,
    from: usize,
    levels: &[Level],
) -> Start
    requires { length levels.now < 4294967295 }
    ensures { (assumed : List ℕ) → IsClosedFor store.now levels.now assumed kept.now
        → IfSome above (MayStart store.now levels.now assumed kept.now from)
        → MayStart store.now levels.now assumed kept.now result.from result.unlisted }
{
    let _vars = store.vars();
    let _lits = kept.trail.lits();
    match above {
        Some(unlisted) => Start { from, unlisted },
        None => Start {
            from: 0,
            unlisted: unlisted_after(&kept.trail, levels),
        },
    }
}

/// What a trail lists that is closed for the scopes and these assumptions. `given` has all
/// assumptions.
pub(crate) fn list(
    alloc: Global,
    store: &Store,
    kept: Kept,
    start: Start,
    noted: &mut Vec<bool>,
    levels: &[Level],
    assumed: &[Lit],
    given: &[Lit],
) -> Result<Outcome, AllocError>
    requires none { AreNoted [] noted.old.items }
    requires given { given.now ≡ scope_assumed levels.now ++ assumed.now }
    requires closed { IsClosedFor store.now levels.now assumed.now kept }
    requires start { MayStart store.now levels.now assumed.now kept start.from start.unlisted }
    ensures closes { IfOk result
        (Closes (problem_of store.now) given.now (scope_listed levels.now)) }
    ensures builds { IfOk result (Builds store.now levels.now assumed.now) }
    ensures none { OnOk result (AreNoted [] noted.new.items) }
    ensures trail { IfOk result (HasTrail kept.trail) }
    ensures little { IfOk result (λ outcome. (old : Option Kept) → Rises old (Closed kept)
        → GrowsLittle (problem_of store.now) levels.now assumed.now (kept_lits old) outcome) }
{
    let _vars = store.vars();
    let mut kept = kept;
    let _lits = kept.trail.lits();
    let listing = implied(
        alloc,
        store,
        &kept.trail,
        noted,
        start.from,
        assumed,
        given,
        levels,
    )?;
    kept.unlisted = start.unlisted;
    Ok(Outcome::Listed(listing, kept))
}
