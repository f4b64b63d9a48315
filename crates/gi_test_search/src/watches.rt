ghost use Rattle.gi_prop.specs.Attached.{IsAttached};

use crate::parts::Parts;
use gi_lit::Lit;
use gi_store::Key;
use std::alloc::Global;

/// Whether these are the two literals, in either order.
fn is_pair(found: Option<(Lit, Lit)>, a: i32, b: i32) -> bool {
    match found {
        None => false,
        Some((x, y)) => {
            let (x, y) = (x.to_dimacs(), y.to_dimacs());
            x == a && y == b || x == b && y == a
        }
    }
}

/// Whether decisions force what the clauses that are left say, and the key's clause watches its
/// literals.
fn follows_decisions(parts: &mut Parts, key: Key) -> bool
    requires { IsAttached parts.old key }
{
    if !parts.decide(1) {
        return false;
    }
    if !parts.closes(&[1]) {
        return false;
    }
    if !parts.decide(2) {
        return false;
    }
    if !parts.closes(&[1, 2, 3]) {
        return false;
    }
    is_pair(parts.watches(key), -2, 3)
}

/// Whether a clause that was detached while two others stayed is watched no more.
fn watches_attached_alone(parts: &mut Parts) -> bool {
    let _ = parts.attach_numbers(&[1, 2, 3]);
    let Ok(second) = parts.attach_numbers(&[-1, 2]) else {
        return false;
    };
    let Ok(third) = parts.attach_numbers(&[-2, 3]) else {
        return false;
    };
    parts.detach(second);
    follows_decisions(parts, third)
}

/// The same on new parts.
fn is_watched(alloc: Global) -> bool {
    match Parts::new(alloc, 3) {
        Ok(mut parts) => watches_attached_alone(&mut parts),
        Err(_) => false,
    }
}

#[test]
fn only_the_clauses_that_are_attached_are_watched(rt: HostRuntime) {
    assert!(rt; is_watched(rt.alloc()));
}

/// Whether -1 is forced first, by the second clause, and then 2 by the first.
fn forces_units(alloc: Global) -> bool {
    match Parts::new(alloc, 2) {
        Ok(mut parts) => {
            parts.attach_numbers(&[1, 2]).is_ok()
                && parts.attach_numbers(&[-1]).is_ok()
                && parts.closes(&[-1, 2])
        }
        Err(_) => false,
    }
}

#[test]
fn units_are_propagated(rt: HostRuntime) {
    assert!(rt; forces_units(rt.alloc()));
}
