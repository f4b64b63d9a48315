ghost use Rattle.std.specs.Prelude.{◌≡◌, ◌<◌, ◌++◌, ℕ, List, length, slice_index, Contains, IfNone, IfSome, IfOk, false, replicate, OnOk, OnErr};
ghost use Rattle.gi_lit.specs.Problem.{has};

use gi_lit::{Lit, Lits};
use std::alloc::{AllocError, Global};

/// Puts literals behind the others. After an error what stood there stands in front.
pub(crate) fn append(to: &mut Lits, more: &[Lit]) -> Result<(), AllocError>
    ensures ok { OnOk result (to.new ≡ to.old ++ more.now) }
    ensures err { OnErr result ((added : List ℕ) × (to.new ≡ to.old ++ added)) }
{
    for l in more {
        to.push(*l)?;
    }
    Ok(())
}

/// So many marks, none of them set.
pub(crate) fn blank(alloc: Global, n: usize) -> Result<Vec<bool>, AllocError>
    ensures { IfOk result (λ v. v.items ≡ replicate n false) }
{
    let marks = vec![in alloc; false; n]?;
    Ok(marks)
}

/// Whether the literal stands in the list.
pub(crate) fn has_lit(lits: &[Lit], l: Lit) -> bool
    ensures { result ≡ has lits.now l }
{
    let wanted = l.code();
    lits.iter().any(|m| wanted == m.code())
}

/// Where the literal stands first in the list.
pub(crate) fn place_in(lits: &[Lit], l: Lit) -> Option<usize>
    ensures none { IfNone result (¬ Contains lits.now l) }
    ensures below { IfSome result (λ k. k < length lits.now) }
    ensures at { IfSome result (λ k. slice_index lits.now k ≡ l) }
{
    for (place, m) in lits.iter().enumerate() {
        if *m == l {
            return Some(place);
        }
    }
    None
}
