use crate::files::value_of;
use gi_circuit::Circuit;
use gi_lit::{Clauses, Lit};
use gi_unroll::{Frame, Unroll};
use std::alloc::{AllocError, Global};

fn unroll_of(alloc: Global, file: &[u8]) -> Result<Option<Unroll>, AllocError> {
    match value_of(alloc, file)? {
        None => Ok(None),
        Some(aig) => Ok(Some(Unroll::new(alloc, Circuit::from_aig(alloc, &aig)?))),
    }
}

/// Whether DIMACS writes these numbers for the literals.
fn are(lits: &[Lit], numbers: &[i32]) -> bool {
    if lits.len() != numbers.len() {
        return false;
    }
    for k in 0..lits.len() {
        if k < numbers.len() && lits[k].to_dimacs() != numbers[k] {
            return false;
        }
    }
    true
}

/// What DIMACS writes for clauses, each with its 0.
fn text(alloc: Global, clauses: &Clauses) -> Result<Vec<i32>, AllocError> {
    let mut all = Vec::new(alloc);
    for clause in clauses.as_slice() {
        for l in clause.as_slice() {
            all.push(l.to_dimacs())?;
        }
        all.push(0)?;
    }
    Ok(all)
}

/// What a frame has to say, with the numbers that DIMACS writes.
#[derive(Clone, Copy)]
struct Said {
    time: u32,
    fresh: u32,
    added: &'static [i32],
    inputs: &'static [i32],
    latches: &'static [i32],
    outs: &'static [i32],
}

/// Whether a frame has these literals, and no bad state and no constraint.
fn have(frame: &Frame, said: &Said) -> bool {
    are(frame.inputs.as_slice(), said.inputs)
        && are(frame.latches.as_slice(), said.latches)
        && are(frame.outs.as_slice(), said.outs)
        && frame.bads.is_empty()
        && frame.cons.is_empty()
}

/// Whether a frame says so.
fn says(alloc: Global, frame: &Frame, said: &Said) -> Result<bool, AllocError> {
    let added = text(alloc, &frame.added)?;
    let counts = frame.time == said.time && frame.fresh == said.fresh;
    Ok(added.as_slice() == said.added && counts && have(frame, said))
}

/// Whether the next frame, its variables behind those of the frames before, says so.
fn next_says(alloc: Global, u: &mut Unroll, said: &Said) -> Result<bool, AllocError> {
    let top = u.top();
    if top > 1000 || u.bound() > 1000 || u.made() > 10 {
        return Ok(false);
    }
    let frame = u.frame(top + 1)?;
    says(alloc, &frame, said)
}

/// Whether a file's circuit has that bound and these frames, up to that variable.
fn unrolls(
    alloc: Global,
    file: &[u8],
    bound: u32,
    told: &[Said],
    top: u32,
) -> Result<bool, AllocError> {
    let Some(mut u) = unroll_of(alloc, file)? else {
        return Ok(false);
    };
    let mut right = u.bound() == bound && u.made() == 0 && u.top() == 0;
    for said in told {
        right = next_says(alloc, &mut u, said)? && right;
    }
    Ok(right && u.made() as usize == told.len() && u.top() == top)
}

const CONJUNCTION: [Said; 1] = [Said {
    time: 0,
    fresh: 4,
    added: &[1, 0, -4, 2, 0, -4, 3, 0, 4, -2, -3, 0],
    inputs: &[2, 3],
    latches: &[],
    outs: &[4],
}];

#[test]
fn a_gate_of_two_inputs(rt: HostRuntime) {
    let file = b"aag 3 2 0 1 1\n2\n4\n6\n6 2 4\n";
    assert!(rt; unrolls(rt.alloc(), file, 4, &CONJUNCTION, 4) == Ok(true));
}

const TOGGLE: [Said; 2] = [
    Said {
        time: 0,
        fresh: 1,
        added: &[1, 0],
        inputs: &[],
        latches: &[-1],
        outs: &[-1, 1],
    },
    Said {
        time: 1,
        fresh: 0,
        added: &[],
        inputs: &[],
        latches: &[1],
        outs: &[1, -1],
    },
];

#[test]
fn a_latch_that_turns(rt: HostRuntime) {
    let file = b"aag 1 0 1 2 0\n2 3\n2\n3\n";
    assert!(rt; unrolls(rt.alloc(), file, 2, &TOGGLE, 1) == Ok(true));
}
