ghost use Rattle.std.specs.Prelude.{ℕ, ◌≤◌, ◌/◌, ◌↔◌, IsTrue, length, List, All};
ghost use Rattle.gi_lit.specs.Truth.{Satisfies, MakesTrue};

use gi_lit::{Assign, Clauses, Lit};

/// Whether the assignment satisfies each of the clauses and makes each of the assumed literals
/// true.
pub fn check_model(clauses: &Clauses, assumed: &[Lit], assign: &Assign) -> bool
    requires clauses { All (λ (c : List ℕ). All (λ l. l / 2 ≤ length assign.now) c) clauses.now }
    requires assumed { All (λ l. l / 2 ≤ length assign.now) assumed.now }
    ensures { IsTrue result ↔ (Satisfies assign.now clauses.now
        × MakesTrue assign.now assumed.now) }
{
    clauses
        .as_slice()
        .iter()
        .all(|c| assign.satisfies(c.as_slice()))
        && assumed.iter().all(|l| assign.makes_true(*l))
}
