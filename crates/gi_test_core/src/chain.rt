use gi_core::Core;
use gi_model::{Call, Reply};
use gi_test_lines::{ask, goes};
use gi_text::{Bytes, Digits};
use std::alloc::{AllocError, Global};

/// How many variables the chain has.
const LENGTH: u32 = 400_000;

/// Puts the clause `-i i+1`.
fn put_link(file: &mut Bytes, i: u32) -> Result<(), AllocError> {
    file.extend(Digits::of(-i128::from(i)).as_slice())?;
    file.push(b' ')?;
    file.extend(Digits::of(i128::from(i) + 1).as_slice())?;
    file.extend(b" 0\n")
}

/// A file of 1 and `-i i+1` for i rising to the half of the length and then falling from the end.
fn chain(alloc: Global) -> Result<Bytes, AllocError> {
    let mut file = Bytes::of(alloc, b"p cnf 400000 400000\n1 0\n")?;
    for i in 1..LENGTH {
        let half = LENGTH / 2;
        put_link(&mut file, if i < half { i } else { LENGTH + half - 1 - i })?;
    }
    Ok(file)
}

/// Whether an answer lists as many positive literals.
fn are_all(reply: &Reply) -> bool {
    match reply {
        Reply::Implied(lits) => {
            lits.len() == LENGTH as usize && lits.as_slice().iter().all(|l| !l.is_negative())
        }
        _ => false,
    }
}

/// Whether the chain is loaded, a test lists its variables, and a solve finds them true.
fn is_followed(alloc: Global) -> Result<bool, AllocError> {
    let mut core = Core::new(alloc);
    let load = Call::LoadCnf(chain(alloc)?);
    if !matches!(ask(&mut core, &load), Some(Reply::LoadedCnf { .. })) {
        return Ok(false);
    }
    let told = match ask(&mut core, &Call::Test) {
        Some(reply) => are_all(&reply),
        None => false,
    };
    Ok(
        told && goes(alloc, &mut core, "untest", "ok")
            && goes(alloc, &mut core, "solve 1", "started 1")
            && goes(alloc, &mut core, "wait", "sat 1"),
    )
}

#[test]
fn a_long_chain_is_followed(rt: HostRuntime) {
    assert!(rt; is_followed(rt.alloc()) == Ok(true));
}
