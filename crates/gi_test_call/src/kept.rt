// What is kept, once with ample memory.
use gi_kept::{Kept, may_answer};
use gi_lit::{Lit, Lits};
use gi_model::{Call, Reply};
use std::alloc::{AllocError, Global};

fn literals(alloc: Global, numbers: &[i32]) -> Result<Lits, AllocError> {
    let mut list = Lits::new(alloc);
    for n in numbers {
        match Lit::from_dimacs(*n) {
            Some(literal) => list.push(literal)?,
            None => {}
        }
    }
    Ok(list)
}

// Whether a model with these literals is true to the clause 1 -2.
fn is_true(alloc: Global, model: &[i32]) -> Result<bool, AllocError> {
    let mut kept = Kept::new(alloc);
    kept.take(Call::Add(literals(alloc, &[1, -2])?), &Reply::Done)?;
    kept.is_true(literals(alloc, model)?.as_slice())
}

#[test]
fn a_clause_is_kept(rt: HostRuntime) {
    assert_eq!(rt; is_true(rt.alloc(), &[-1, -2]), Ok(true));
    assert_eq!(rt; is_true(rt.alloc(), &[-1, 2]), Ok(false));
}

fn keeps_vars(alloc: Global) -> Result<bool, AllocError> {
    let mut kept = Kept::new(alloc);
    kept.take(Call::Vars(7), &Reply::Vars(7))?;
    Ok(kept.vars() == 7 && may_answer(&Call::Test, &Reply::Implied(Lits::new(alloc))))
}

#[test]
fn variables_are_kept(rt: HostRuntime) {
    assert_eq!(rt; keeps_vars(rt.alloc()), Ok(true));
}
