// The plan of the drill, and its clauses one after another.
ghost use Rattle.std.specs.Prelude.{◌≡◌, ◌<◌, ◌≤◌, ◌*◌, ◌+◌, ◌/◌, ◌∷◌, [], length, IfOk};
ghost use Rattle.gi_drill.specs.Generator.{state_after};
ghost use Rattle.gi_drill.specs.Instance.{chosen, first_values, literal_by, mended, second_place, third_place};

use crate::generator::Generator;
use gi_lit::{Assign, Lit};
use std::alloc::{AllocError, Global};

/// The values of 150 variables, by a draw for each.
pub(crate) fn draw_plan(alloc: Global, generator: &mut Generator) -> Result<Assign, AllocError>
    ensures plan { IfOk result (λ plan. plan ≡ first_values generator.old 150) }
    ensures state { IfOk result (λ plan. generator.new ≡ state_after 150 generator.old) }
    ensures count { IfOk result (λ plan. length plan ≡ 150) }
{
    let mut values = Vec::new(alloc);
    for _v in 0..150_u32 {
        let value = generator.draw(2);
        values.push(value == 1)?;
    }
    Ok(Assign::from_vec(values))
}

/// Three literals of different variables, by six draws.
#[tactic(auto, unfolding(crate::specs::Instance::chosen, crate::specs::Generator::state_after))]
pub(crate) fn choose(generator: &mut Generator) -> (Lit, Lit, Lit)
    ensures state { generator.new ≡ state_after 6 generator.old }
    ensures literals { result.0 ∷ result.1 ∷ result.2 ∷ [] ≡ chosen generator.old }
    ensures within { (result.0 / 2 ≤ 150) × (result.1 / 2 ≤ 150) × (result.2 / 2 ≤ 150) }
{
    let a = generator.draw(150);
    let b = second(a, generator.draw(149));
    let c = third(a, b, generator.draw(148));
    let first = literal(a, generator.draw(2));
    let other = literal(b, generator.draw(2));
    let last = literal(c, generator.draw(2));
    (first, other, last)
}

// A place other than `a`.
#[tactic(auto, unfolding(crate::specs::Instance::second_place))]
fn second(a: u32, d: u32) -> u32
    requires { (a < 150) × (d < 149) }
    ensures value { result ≡ second_place a d }
    ensures below { result < 150 }
{
    (a + 1 + d) % 150
}

// A place other than both.
#[tactic(auto, unfolding(crate::specs::Instance::third_place))]
fn third(a: u32, b: u32, d: u32) -> u32
    requires { (a < 150) × (b < 150) × (d < 148) }
    ensures value { result ≡ third_place a b d }
    ensures below { result < 150 }
{
    let (low, high) = if a < b { (a, b) } else { (b, a) };
    let mut place = d;
    if low <= place {
        place += 1;
    }
    if high <= place {
        place += 1;
    }
    place
}

// The literal of the variable at a place.
#[tactic(auto, unfolding(crate::specs::Instance::literal_by))]
fn literal(place: u32, sign: u32) -> Lit
    requires { place < 150 }
    ensures value { result ≡ literal_by place sign }
    ensures within { result / 2 ≤ 150 }
{
    let code = if sign == 1 {
        2 * (place + 1)
    } else {
        2 * (place + 1) + 1
    };
    match Lit::from_code(code) {
        Some(literal) => literal,
        None => unreachable!(),
    }
}

/// The first literal of a clause, negated where the plan makes no literal true.
#[tactic(auto, unfolding(crate::specs::Instance::mended))]
pub(crate) fn mend(plan: &Assign, a: Lit, b: Lit, c: Lit) -> Lit
    requires { (a / 2 ≤ length plan.now) × (b / 2 ≤ length plan.now) × (c / 2 ≤ length plan.now) }
    ensures { result ∷ b ∷ c ∷ [] ≡ mended plan.now (a ∷ b ∷ c ∷ []) }
{
    if plan.satisfies(&[a, b, c]) {
        a
    } else {
        a.not()
    }
}
