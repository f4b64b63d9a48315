ghost use Rattle.std.specs.Prelude.{◌≡◌, ◌+◌, ◌≤◌, ◌++◌, length, None, take, replicate, vec_len, vec_capacity};
ghost use Rattle.gi_prop.specs.Laid.{IsTable};

use crate::truth::Truth;
use gi_chains::Link;
use gi_lit::Lit;

/// Takes the literals behind `len` away, with their places and values.
pub(crate) fn unwind(
    lits: &mut Vec<Lit>,
    positions: &mut Vec<Link>,
    values: &mut Vec<Truth>,
    len: usize,
)
    requires table { IsTable positions.old.items lits.old.items values.old.items }
    requires len { len ≤ length lits.old.items }
    ensures table { IsTable positions.new.items lits.new.items values.new.items }
    ensures lits { lits.new.items ≡ take len lits.old.items }
    ensures capacity { vec_capacity lits.old ≤ vec_capacity lits.new }
    ensures positions { length positions.new.items ≡ length positions.old.items }
{
    while lits.len() > len {
        if let Some(l) = lits.pop() {
            let at = (l.var().index() - 1) as usize;
            positions[at] = Link::none();
            values[at] = Truth::unknown();
        }
    }
}

/// Adds places that hold nothing.
pub(crate) fn add_positions(positions: &mut Vec<Link>, more: usize)
    requires { vec_len positions.old + more ≤ vec_capacity positions.old }
    ensures { positions.new.items ≡ positions.old.items ++ replicate more None }
{
    for _i in 0..more {
        positions.push_reserved(Link::none());
    }
}

/// Adds values of variables that have none.
pub(crate) fn add_values(values: &mut Vec<Truth>, more: usize)
    requires { vec_len values.old + more ≤ vec_capacity values.old }
    ensures { values.new.items ≡ values.old.items ++ replicate more None }
{
    for _i in 0..more {
        values.push_reserved(Truth::unknown());
    }
}
