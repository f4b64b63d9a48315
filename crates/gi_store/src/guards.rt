ghost use Rattle.std.specs.Prelude.{◌≡◌, ◌<◌, ◌≤◌, ◌+◌, ◌-◌, ℕ, [], ◌∷◌, ◌++◌, length, replicate, Contains, IfOk, OnOk, vec_len, vec_capacity};
ghost use Rattle.gi_lit.specs.Literals.{max_var};
ghost use Rattle.gi_lit.specs.Problem.{without, negatives};
ghost use Rattle.gi_store.specs.Taken.{Takes};
ghost use Rattle.gi_store.specs.declared.kind.VarKind.TheVariants.{Problem};

use crate::kind::VarKind;
use gi_lit::{Lit, Lits, Var};
use std::alloc::{AllocError, Global};

/// Takes a variable out of a list.
pub(crate) fn drop_var(vars: &mut Vec<Var>, v: Var)
    ensures items { vars.new.items ≡ without v vars.old.items }
{
    let dropped = v.index();
    vars.retain(|w| w.index() != dropped);
}

/// The clause with the guards' negative literals behind it, in order.
pub(crate) fn guarded(alloc: Global, guards: &[Var], c: &[Lit]) -> Result<Lits, AllocError>
    ensures { IfOk result (λ d. d ≡ c.now ++ negatives guards.now) }
{
    let mut lits = Vec::new(alloc);
    lits.reserve(c.len().saturating_add(guards.len()))?;
    lits.extend_from_slice(c)?;
    for g in guards {
        lits.push(g.negative())?;
    }
    Ok(Lits::from_vec(lits))
}

/// Adds variables of the problem behind the others.
pub(crate) fn add_kinds(kinds: &mut Vec<VarKind>, more: usize)
    requires { vec_len kinds.old + more ≤ vec_capacity kinds.old }
    ensures { kinds.new.items ≡ kinds.old.items ++ replicate more Problem }
{
    for _i in 0..more {
        kinds.push_reserved(VarKind::Problem);
    }
}

/// Makes room for one active guard more, and for its release.
pub(crate) fn make_room(
    kinds: &mut Vec<VarKind>,
    active: &mut Vec<Var>,
    freed: &mut Vec<Var>,
) -> Result<(), AllocError>
    ensures kinds { kinds.new.items ≡ kinds.old.items }
    ensures active { active.new.items ≡ active.old.items }
    ensures freed { freed.new.items ≡ freed.old.items }
    ensures capacity { vec_capacity freed.old ≤ vec_capacity freed.new }
    ensures kind_room { OnOk result (vec_len kinds.new + 1 ≤ vec_capacity kinds.new) }
    ensures active_room { OnOk result (vec_len active.new + 1 ≤ vec_capacity active.new) }
    ensures freed_room { OnOk result
        (vec_len freed.new + (vec_len active.new + 1) ≤ vec_capacity freed.new) }
{
    kinds.reserve(1)?;
    active.reserve(1)?;
    let guards = active.len().checked_add(1).ok_or(AllocError)?;
    freed.reserve(guards)?;
    Ok(())
}

/// Makes the guard freed last active, else the next variable.
pub(crate) fn take_guard(
    kinds: &mut Vec<VarKind>,
    active: &mut Vec<Var>,
    freed: &mut Vec<Var>,
) -> Var
    requires kind_room { vec_len kinds.old + 1 ≤ vec_capacity kinds.old }
    requires active_room { vec_len active.old + 1 ≤ vec_capacity active.old }
    requires within { (v : ℕ) → Contains freed.old.items v → v ≤ length kinds.old.items }
    requires limit { freed.old.items ≡ [] → length kinds.old.items < max_var }
    ensures takes { Takes kinds.old.items freed.old.items result kinds.new.items freed.new.items }
    ensures active { active.new.items ≡ active.old.items ++ result ∷ [] }
    ensures capacity { vec_capacity freed.new ≡ vec_capacity freed.old }
{
    let guard = match freed.pop() {
        Some(guard) => {
            kinds[(guard.index() - 1) as usize] = VarKind::Active;
            guard
        }
        None => {
            kinds.push_reserved(VarKind::Active);
            let Some(guard) = Var::new(kinds.len() as u32) else {
                unreachable!()
            };
            guard
        }
    };
    active.push_reserved(guard);
    guard
}
