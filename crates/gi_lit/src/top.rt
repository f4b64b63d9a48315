ghost use Rattle.std.specs.Prelude.{◌≡◌, ◌/◌, ◌≤◌, All};
ghost use Rattle.gi_lit.specs.Literals.{max_var};
ghost use Rattle.gi_lit.specs.Problem.{top};

use crate::lit::Lit;

/// The greatest variable of the literals, or 0 if there are none.
pub fn top_variable(lits: &[Lit]) -> u32
    ensures value { result ≡ top lits.now }
    ensures high { result ≤ max_var }
    ensures within { All (λ l. l / 2 ≤ result) lits.now }
{
    let mut greatest = 0;
    for l in lits {
        let v = l.var().index();
        if greatest < v {
            greatest = v;
        }
    }
    greatest
}
