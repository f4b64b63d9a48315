ghost use Rattle.std.specs.Prelude.{◌≡◌, ◌≤◌, ◌<◌, ◌/◌, ℕ, List, false, length, All, Contains, IfSome, IfNone, OnOk, IsTrue};
ghost use Rattle.gi_lit.specs.Literals.{opposite};
ghost use Rattle.gi_store.specs.StoreView.{StoreView, IsWithin};
ghost use Rattle.gi_prop.specs.Attached.{Attached, IsAttached, Goes};
ghost use Rattle.gi_scopes.specs.Under.{Adds, base_of, AreProblemKeys};

use gi_lit::Lit;
use gi_prop::laws::edits_keep_goes;
use gi_prop::{Prop, Trail};
use gi_store::Store;
use std::alloc::AllocError;

/// Makes a literal true where it has no value. Whether it isn't false.
fn take_on(trail: &mut Trail, l: Lit) -> bool
    requires { l / 2 ≤ trail.old.vars }
    ensures adds { (given : List ℕ) → Contains given l → Adds given trail.old trail.new }
    ensures goes { (p : Attached) (s : StoreView) → Goes p s trail.old → Goes p s trail.new }
    ensures taken { IsTrue result → Contains trail.new.lits l }
    ensures clash { result ≡ false → Contains trail.new.lits (opposite l) }
{
    match trail.value(l) {
        Some(value) => value,
        None => {
            trail.assign(l, None);
            true
        }
    }
}

/// Makes assumptions true in order, up to one that is false.
pub(crate) fn assume(trail: &mut Trail, given: &[Lit]) -> Option<Lit>
    requires { IsWithin trail.old.vars given.now }
    ensures adds { Adds given.now trail.old trail.new }
    ensures goes { (p : Attached) (s : StoreView) → Goes p s trail.old → Goes p s trail.new }
    ensures whole { IfNone result (All (Contains trail.new.lits) given.now) }
    ensures stands { IfSome result (λ l. Contains given.now l) }
    ensures clash { IfSome result (λ l. Contains trail.new.lits (opposite l)) }
{
    for l in given {
        if !take_on(trail, *l) {
            return Some(*l);
        }
    }
    None
}

/// Attaches the clauses of the problem, and none of the learnt ones.
pub(crate) fn attach_problem(
    store: &Store,
    trail: &Trail,
    prop: &mut Prop,
) -> Result<(), AllocError>
    requires none { (k : ℕ) → ¬ IsAttached prop.old k }
    requires goes { Goes prop.old store.now trail.now }
    requires vars { store.now.vars ≤ trail.now.vars }
    ensures keys { OnOk result (AreProblemKeys prop.new (base_of store.now)) }
    ensures goes { OnOk result (Goes prop.new (base_of store.now) trail.now) }
{
    edits_keep_goes();
    let _vars = store.vars();
    for i in 0..store.problem() {
        let Some(key) = store.key_at(i + 1) else {
            unreachable!()
        };
        prop.attach(store, trail, key)?;
    }
    Ok(())
}
