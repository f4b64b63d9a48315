//! Edits of a store and of the search that goes with it.

ghost use Rattle.std.specs.Prelude.{◌≡◌, ◌+◌, ◌<◌, ◌≤◌, false, All, Contains, OnOk, length, IsTrue, ◌↔◌};
ghost use Rattle.gi_lit.specs.Problem.{with_clause, with_group, names};
ghost use Rattle.gi_store.specs.StoreView.{StoreView, problem_of, entries, keys_of, without_guard_of, trimmed};
ghost use Rattle.gi_model.specs.Refusals.{some_unusable};
ghost use Rattle.gi_cdcl.specs.Searching.{MatchesStore};
ghost use Rattle.gi_scopes.specs.Under.{base_of};
ghost use Rattle.gi_core.specs.Content.{content_of};
ghost use Rattle.gi_core.specs.Joined.{IsJoined, AreAttached, HasKeys, IsLeft, AreGuardsLast, EndsActive, looked_at};

use gi_cdcl::Search;
use gi_cdcl::laws::edits_keep_searches;
use gi_lit::{Lit, Var, top_variable};
use gi_model::lists::names_var;
use gi_store::{Store, edits_are_of_the_problem};
use std::alloc::AllocError;

/// A plain clause more, and its variables.
pub fn put(store: &mut Store, search: &mut Search, c: &[Lit]) -> Result<(), AllocError>
    requires joined { IsJoined search.old store.old }
    requires usable { some_unusable (problem_of store.old) c.now ≡ false }
    ensures content { OnOk result
        (content_of store.new ≡ record (content_of store.old) {
          problem = with_clause c.now
              (problem_of store.old);
          base = base_of store.new;
        }) }
    ensures joined { OnOk result (IsJoined search.new store.new) }
{
    edits_keep_searches();
    edits_are_of_the_problem();
    store.is_whole();
    store.grow(top_variable(c))?;
    let key = store.add(c)?;
    search.attach(store, key)?;
    Ok(())
}

/// A clause more under active guards, one at least, and its variables.
pub fn put_under(
    store: &mut Store,
    search: &mut Search,
    guards: &[Var],
    c: &[Lit],
) -> Result<(), AllocError>
    requires joined { IsJoined search.old store.old }
    requires some { 0 < length guards.now }
    requires guards { All (Contains store.old.active) guards.now }
    requires usable { some_unusable (problem_of store.old) c.now ≡ false }
    ensures content { OnOk result
        (content_of store.new ≡ record (content_of store.old) {
          problem = with_group guards.now
              c.now (problem_of store.old);
          base = base_of store.new;
        }) }
    ensures joined { OnOk result (IsJoined search.new store.new) }
{
    edits_keep_searches();
    edits_are_of_the_problem();
    store.is_whole();
    store.grow(top_variable(c))?;
    let key = store.add_under(guards, c)?;
    search.attach(store, key)?;
    Ok(())
}

/// Detaches each clause that goes with a guard: the groups that name it, and what was learnt about
/// it. Reads of a group its guards alone, and no plain clause but the last one.
pub fn detach_naming(store: &Store, search: &mut Search, g: Var)
    requires joined { IsJoined search.old store.now }
    requires guard { Contains store.now.active g }
    ensures attached { AreAttached search.new (keys_of (without_guard_of g store.now)) }
    ensures goes { (h : StoreView) → MatchesStore search.old h → MatchesStore search.new h }
{
    detach_learnt(store, search, g);
    detach_groups(store, search, g);
}

/// Detaches the learnt clauses that name a guard, the last one first.
fn detach_learnt(store: &Store, search: &mut Search, g: Var)
    requires { IsJoined search.old store.now }
    ensures { IsLeft search.old search.new
        (looked_at g (entries store.now) (length store.now.plain + length store.now.groups)) }
{
    store.is_whole();
    let first = store.problem();
    let count = store.known();
    for i in 0..count {
        let Some(key) = store.key_at(first + (count - i)) else {
            unreachable!()
        };
        if names_var(store.clause(key), g) {
            search.detach(key);
        }
    }
}

/// Detaches the groups that name a guard, the last one first, up to the plain clauses, which name
/// none.
fn detach_groups(store: &Store, search: &mut Search, g: Var)
    requires guard { Contains store.now.active g }
    requires left { HasKeys search.old
        (looked_at g (entries store.now) (length store.now.plain + length store.now.groups)) }
    ensures attached { AreAttached search.new (keys_of (without_guard_of g store.now)) }
    ensures goes { (h : StoreView) → MatchesStore search.old h → MatchesStore search.new h }
{
    store.is_whole();
    edits_are_of_the_problem();
    let count = store.problem();
    for i in 0..count {
        let Some(key) = store.key_at(count - i) else {
            unreachable!()
        };
        let clause = store.clause(key);
        if !is_group(store, clause) {
            return;
        }
        if has_guard(store, clause, g) {
            search.detach(key);
        }
    }
}

/// Whether a clause of the problem stands under guards: the literals of these are its last ones.
fn is_group(store: &Store, clause: &[Lit]) -> bool
    ensures { IsTrue result ↔ EndsActive store.now.active clause.now }
{
    match clause.last() {
        Some(l) => store.is_active(l.var()),
        None => false,
    }
}

/// Whether a clause that ends with the literals of its guards names this one. Reads those, and the
/// literal before them.
fn has_guard(store: &Store, clause: &[Lit], g: Var) -> bool
    requires guard { Contains store.now.active g }
    requires last { AreGuardsLast store.now.active clause.now }
    ensures { result ≡ names g clause.now }
{
    for i in 0..clause.len() {
        let v = clause[clause.len() - 1 - i].var();
        if v.index() == g.index() {
            return true;
        }
        if !store.is_active(v) {
            return false;
        }
    }
    false
}

/// Detaches the older half of the learnt clauses, rounded down.
pub fn detach_oldest(store: &Store, search: &mut Search)
    requires { IsJoined search.old store.now }
    ensures attached { AreAttached search.new (keys_of (trimmed store.now)) }
    ensures goes { (h : StoreView) → MatchesStore search.old h → MatchesStore search.new h }
{
    store.is_whole();
    let first = store.problem();
    for i in 0..store.known() / 2 {
        let Some(key) = store.key_at(first + (i + 1)) else {
            unreachable!()
        };
        search.detach(key);
    }
}
